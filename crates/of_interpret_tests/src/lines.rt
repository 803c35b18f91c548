//! Lines of text, and what they leave.
use crate::reading::left_by;
use of_interpret::text_words_do;
use std::alloc::Global;
use std::test::Fail;

/// Words, numbers, characters, strings and comments; behind each line the data stack, bottom first, and what it prints.
const WORDS: &str = "\
1 2 +|3 |
ff FF|ff ff |
-1 7fffffff|ffffffff 7fffffff |
h# 10 d# 10|10 a |
decimal 10 hex|a |
10 base ! 1|1 |
nonsense||fault -13: undefined word$
b(lit)||fault -13: undefined word$
100000000||fault -13: undefined word$
h# g||fault -13: undefined word$
0 base ! 5||fault -24: invalid numeric argument$
char A char xyz|41 78 |
char||fault -16: zero-length name$
1 ( two 3 ) 4|1 4 |
1 \\ 2|1 |
.\" a b\"||a b
.\" a b||a b
s\" ab\"|500400 2 |
s\" ab\" s\" c\"|500400 2 500402 1 |
.\" ab\" s\" c\"|500400 1 |ab
\" a\"(42 43)d\" type||aBCd
' + ' DUP|c0000080 c0000130 |
'||fault -16: zero-length name$
' nonsense||fault -13: undefined word$
1 2 ' + execute|3 |
dup||fault -4: stack underflow$
if||fault -14: compile-only word$
[char] a||fault -14: compile-only word$
;||fault -14: compile-only word$
to||fault -4: stack underflow$
1 to nonsense||fault -13: undefined word$
1 to +||fault -32: invalid name argument$
dev / pwd||/$
dev /slot pwd||/slot$
dev /slot dev /slot pwd||/slot$
dev /slot dev .. ls||d0000004 packages$d0000008 slot$
dev /nothing||fault -259: no such node$
dev slot||fault -259: no such node$
dev||fault -16: zero-length name$
see||fault -16: zero-length name$
see nonsense||fault -13: undefined word$
see DUP||primitive dup$
5 constant c see c||constant c$
5 value v see v||value v$
variable v see v||variable v$
create d see d||create d$
defer x see x||defer x$
8 buffer: q see q||buffer q$
0 4 field a drop see a||field a$
dev /slot 5 instance value w see w||slot per instance w$
";

/// Definitions, some over several lines, which a `~` sets apart.
const DEFINITIONS: &str = "\
: sq dup * ; 5 sq|19 |
: sq ~ dup * ~ ; 5 sq|19 |
: t if 1 else 2 then ; 0 t 5 t|2 1 |
: t begin dup while 1- repeat ; 3 t|0 |
: a1 0 0 do i . -1 +loop ; a1 : b1 3 0 do i . 2 +loop ; b1 : c1 0 2 do i . -1 +loop ; c1||0 0 2 2 1 0 
: t drop drop 7 throw ; 1 2 ' t catch . . .||7 0 0 
: f 4 0 do i here i + c! loop ; f here here 1+ 3 move here 3 + c@ .||2 
: k case 1 of 61 emit endof 2 of 62 emit endof 3f emit endcase ; ~ 1 k 2 k 3 k||ab?
: t 9 0 do i dup 3 = if leave then drop loop ; t|3 |
: fact dup 1 > if dup 1- recurse * then ; 5 fact|78 |
: t .\" hi\" s\" yo\" type ; t t||hiyohiyo
here : t s\" abc\" ; here swap -|4 |
: t s\" abc\" ; t swap here 4 - =|3 ffffffff |
: t s\" a\" s\" b\" ; t drop c@ nip nip|62 |
: t [char] A emit ; t||A
: t [ 2 3 * ] literal ; t|6 |
: t ['] + execute ; 1 2 t|3 |
: t [ 5 ] to, ;||fault -263: bad handle$
5 value x : t to x ; 7 t x|7 |
5 value x 8 to x x|8 |
variable v 3 v ! v @|3 |
7 constant c c|7 |
0 4 field a 8 field b|c |
0 4 field a 8 field b drop 100 b|104 |
create d 1 , d @|1 |
8 buffer: q q here swap -|8 |
defer x ' x to x x||fault -263: bad handle$
defer x ' dup to x 1 x|1 1 |
: imm 1 . ; immediate : t imm 2 . ; t t||1 2 2 
: t if||
: t ~ : u||fault -29: compiler nesting$
: t then ;||fault -22: control structure mismatch$
: t if ;||fault -22: control structure mismatch$
constant||fault -4: stack underflow$
1 constant||fault -16: zero-length name$
: abcdefghijklmnopqrstuvwxyz012345||fault -19: name too long$
: t 1 ; : t 2 ; t|2 |
: t 1 ; : t t 1+ ; t|2 |
dev /slot instance value||fault -4: stack underflow$
dev /slot 5 instance value w ' w|c000052c |
dev /slot 5 instance value w 6 value x x|6 |
dev /slot : m 7 ; : n m 1+ ; n|8 |
5 instance value w||fault -259: no such node$
dev /slot : m 7 ; m device-end|7 |
dev /slot : m 7 ; device-end m||fault -13: undefined word$
dev /slot 7 constant m m device-end|7 |
dev /slot 7 constant m device-end m||fault -13: undefined word$
: t begin dup while 1- repeat ; see t 3 t .||: t begin dup if 1- again then ;$0 
: t if 4 else 5 then ; see t||: t if h# 4 ahead [ h# 1 ] cs-roll then h# 5 then ;$
: t if 1 else 2 then ; see t||: t if 1 ahead [ h# 1 ] cs-roll then 2 then ;$
: sq dup * ; : t sq recurse ; see t||: t sq recurse ;$
: t s\" a b\" type ; see t||: t \" a b\" type ;$
: imm ; immediate : t [ ' imm compile, ] ; see t||: t [ h# c000052c compile, ] ;$
5 value x : t to x ; see t||: t to x ;$
: t [ see dup 1 ] literal ; t|1 |primitive dup$
: \"x dup ; : t \"x ; see t||: t \"x ;$
: 5 dup ; : t 5 ; see t||: t 5 ;$
: Foo dup ; : t fOO ; see T||: t Foo ;$
: a dup ; : t a ; : a drop ; see t||: t [ h# c000052c compile, ] ;$
: a dup ; dev /slot : t a ; : a drop ; see t||: t [ h# c000052c compile, ] ;$
5 value a : t to a ; 6 value a see t||: t [ h# c000052c ] to, ;$
2 base ! : t 101 ; see t||: t h# 5 ;$
d# 36 base ! : t zz ; see t||: t h# 50f ;$
: t \" a\"(22)b\" ; see t||: t \" a\"(22)b\" ;$
: t \" \"(01 7f)\" ; see t||: t \" \"(01)\"(7f)\" ;$
: t \" \" ; see t||: t \" \" ;$
: t begin if until then ; see t||: t begin if until then ;$
: t case 1 of 2 endof endcase ; see t||: t 1 case of 2 endof endcase ;$
: t case 1 of endof case endcase 3 of endof endcase ; see t||: t 1 case of endof case endcase 3 of endof endcase ;$
: t case 3 of case 2 of endof endcase endof endcase ; see t||: t 3 case of 2 case of endof endcase endof endcase ;$
: t if ahead [ 1 ] cs-roll then 4 then ; see t||: t if ahead [ h# 1 ] cs-roll then h# 4 then ;$
: t do i leave loop ?do 4 +loop ; see t||: t do i leave loop ?do h# 4 +loop ;$
";

/// Words with each of their faults: those that serve only while words are compiled, executed as words and by their
/// execution tokens; and defining words with no name, with one of 32 bytes, in a definition, and without their cells.
const FAULTS: &str = "\
' ; execute||fault -14: compile-only word$
' if execute||fault -14: compile-only word$
else||fault -14: compile-only word$
' else execute||fault -14: compile-only word$
then||fault -14: compile-only word$
' then execute||fault -14: compile-only word$
ahead||fault -14: compile-only word$
' ahead execute||fault -14: compile-only word$
begin||fault -14: compile-only word$
' begin execute||fault -14: compile-only word$
while||fault -14: compile-only word$
' while execute||fault -14: compile-only word$
repeat||fault -14: compile-only word$
' repeat execute||fault -14: compile-only word$
until||fault -14: compile-only word$
' until execute||fault -14: compile-only word$
again||fault -14: compile-only word$
' again execute||fault -14: compile-only word$
do||fault -14: compile-only word$
' do execute||fault -14: compile-only word$
?do||fault -14: compile-only word$
' ?do execute||fault -14: compile-only word$
loop||fault -14: compile-only word$
' loop execute||fault -14: compile-only word$
+loop||fault -14: compile-only word$
' +loop execute||fault -14: compile-only word$
leave||fault -14: compile-only word$
' leave execute||fault -14: compile-only word$
case||fault -14: compile-only word$
' case execute||fault -14: compile-only word$
of||fault -14: compile-only word$
' of execute||fault -14: compile-only word$
endof||fault -14: compile-only word$
' endof execute||fault -14: compile-only word$
endcase||fault -14: compile-only word$
' endcase execute||fault -14: compile-only word$
recurse||fault -14: compile-only word$
' recurse execute||fault -14: compile-only word$
literal||fault -14: compile-only word$
' literal execute||fault -14: compile-only word$
[||fault -14: compile-only word$
' [ execute||fault -14: compile-only word$
cs-roll||fault -14: compile-only word$
' cs-roll execute||fault -14: compile-only word$
to,||fault -14: compile-only word$
' to, execute||fault -14: compile-only word$
['] dup||fault -14: compile-only word$
' ['] execute||fault -14: compile-only word$
' [char] execute||fault -14: compile-only word$
]||fault -14: compile-only word$
' ] execute||fault -14: compile-only word$
immediate||fault -263: bad handle$
: t [ recurse ] ;||fault -14: compile-only word$
: t [ ;||fault -14: compile-only word$
: t char a ;||fault -14: compile-only word$
: t literal ;||fault -4: stack underflow$
: t cs-roll ;||fault -4: stack underflow$
: t to, ;||fault -4: stack underflow$
: t ['] nonsense ;||fault -13: undefined word$
: t [']||fault -16: zero-length name$
: t to||fault -16: zero-length name$
: t [char]||fault -16: zero-length name$
: t to nonsense ;||fault -13: undefined word$
: t nonsense ;||fault -13: undefined word$
: t h# g ;||fault -13: undefined word$
h#||fault -13: undefined word$
d# a||fault -13: undefined word$
d#||fault -13: undefined word$
:||fault -16: zero-length name$
: abcdefghijklmnopqrstuvwxyz012345||fault -19: name too long$
: t : x||fault -29: compiler nesting$
1 constant||fault -16: zero-length name$
1 constant abcdefghijklmnopqrstuvwxyz012345||fault -19: name too long$
: t constant x||fault -29: compiler nesting$
constant x||fault -4: stack underflow$
1 value||fault -16: zero-length name$
1 value abcdefghijklmnopqrstuvwxyz012345||fault -19: name too long$
: t value x||fault -29: compiler nesting$
value x||fault -4: stack underflow$
variable||fault -16: zero-length name$
variable abcdefghijklmnopqrstuvwxyz012345||fault -19: name too long$
: t variable x||fault -29: compiler nesting$
create||fault -16: zero-length name$
create abcdefghijklmnopqrstuvwxyz012345||fault -19: name too long$
: t create x||fault -29: compiler nesting$
defer||fault -16: zero-length name$
defer abcdefghijklmnopqrstuvwxyz012345||fault -19: name too long$
: t defer x||fault -29: compiler nesting$
8 buffer:||fault -16: zero-length name$
8 buffer: abcdefghijklmnopqrstuvwxyz012345||fault -19: name too long$
: t buffer: x||fault -29: compiler nesting$
buffer: x||fault -4: stack underflow$
0 4 field||fault -16: zero-length name$
0 4 field abcdefghijklmnopqrstuvwxyz012345||fault -19: name too long$
: t field x||fault -29: compiler nesting$
field x||fault -4: stack underflow$
4 field x||fault -4: stack underflow$
";

/// A string of so many bytes, with its word.
fn string_of(alloc: Global, length: usize) -> Result<String, Fail> {
    let mut text = String::new(alloc);
    text.push_str("s\" ")?;
    for _ in 0..length {
        text.push('a')?;
    }
    text.push_str("\" ")?;
    Ok(text)
}

/// The lines that leave something else, each with what it leaves; nothing where there is none.
fn differing(alloc: Global, lines: &str) -> Result<String, Fail> {
    let mut all = String::new(alloc);
    for line in lines.lines() {
        let mut parts = line.splitn(2, '|');
        let text = parts.next().unwrap_or("");
        let wanted = parts.next().unwrap_or("");
        let found = left_by(alloc, text)?;
        if found.as_str() != wanted {
            all.push_str(&format!(in alloc; "{text}|{found}\n")?)?;
        }
    }
    Ok(all)
}

#[test]
fn words(rt: HostRuntime) -> Result<(), Fail> {
    assert_eq!(rt; differing(rt.alloc(), WORDS)?.as_str(), "");
    Ok(())
}

#[test]
fn definitions(rt: HostRuntime) -> Result<(), Fail> {
    assert_eq!(rt; differing(rt.alloc(), DEFINITIONS)?.as_str(), "");
    Ok(())
}

#[test]
fn faults(rt: HostRuntime) -> Result<(), Fail> {
    assert_eq!(rt; differing(rt.alloc(), FAULTS)?.as_str(), "");
    Ok(())
}

#[test]
fn strings_stand_one_after_another(rt: HostRuntime) -> Result<(), Fail> {
    let mut line = String::new(rt.alloc());
    for _ in 0..12 {
        line.push_str(string_of(rt.alloc(), 255)?.as_str())?;
        line.push_str("2drop ")?;
    }
    for length in [12, 0, 1] {
        line.push_str(string_of(rt.alloc(), length)?.as_str())?;
    }
    let found = left_by(rt.alloc(), line.as_str())?;
    assert_eq!(rt; found.as_str(), "500ff4 c 501000 0 500400 1 |");
    Ok(())
}

#[test]
fn strings_have_at_most_255_bytes(rt: HostRuntime) -> Result<(), Fail> {
    let long = string_of(rt.alloc(), 256)?;
    let found = left_by(rt.alloc(), long.as_str())?;
    assert_eq!(rt; found.as_str(), "|fault -24: invalid numeric argument$");
    Ok(())
}

/// The law holds.
#[test]
fn laws() {
    text_words_do();
}
