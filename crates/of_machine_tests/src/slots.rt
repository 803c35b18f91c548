//! Images whose words are one of each instance: what they leave, for which instance, and where their bytes stand.
use crate::rows::check_on_machines;
use crate::shared::{after_run, image_of, printed};
use crate::tree::{PrintRows, check_in_turn};
use std::test::Fail;

/// Images, and behind `|` what they print: a value, a variable, a buffer and a defer of the instance that the load
/// opens, whose arguments have the first block. A slot's bytes stand in the block behind it, and no data space is
/// taken, but that it is aligned.
const KINDS: &str = "\
/slot c0 a7 b50800 b8 0800 9d 1000300008 6d 9d 00|2 2
/slot c0 a7 b50800 b8 a8 c3 0800 0800 9d 1000300008 6d 9d 00|3 3
/slot c0 a7 b50800 b8 a4 1000300008 72 0800 9d 00|-1
/slot c0 a4 b50800 b8 b50801 b7 0800 a6 1e c3 0800 0800 9d c2 0801 0801 00|0 1
/slot c0 b50800 b9 0800 9b 0800 6d 9d a8 0800 72 0800 6d 9d 00|300008 0 3
/slot c0 1000000009 b50800 bd 0800 9b 0800 1000000008 1e 71 9d a4 0800 1000000008 1e 75 1000300010 71 9d 00|\
300008 0 ff
/slot c0 b50800 bc 11 a8 c3 0800 0800 9d 1000300008 6d 9b 00|3 c00002e8
/slot c0 b50800 bc 11 a8 1000300008 72 0800 9d 11 0800 de 9b 00|3 c00002e8
/slot c0 b50800 bc 0800 00|fault -263: bad handle$
/slot c0 b50800 bc 11 0800 de 9b 11 1e c3 0800 11 0800 de 9b a7 a8 0800 9d 00|0 c0000080 5
/slot c0 a7 b50800 b8 11 0800 1d 9d 11 0800 0217 9d 9d 00|2 0 2
/slot c0 b50800 bc 11 a7 c3 0800 11 0800 1d 9d 11 0800 0217 9d 9d 00|2 0 2
/slot c0 a5 b50800 b8 b50801 b7 1000000005 a5 17000c 0800 a6 1e c3 0800 15fff8 c2 0801 0800 9d 00|5
/slot c0 b50800 b9 b50801 b7 1000000005 a5 170009 a6 0800 6c 15fffb c2 0801 0800 6d 9d 00|5
/slot c0 a7 b50800 b8 11 0800 a5 1000000801 db 0801 9d a8 c3 0801 0800 9d 00|2 3
/slot c0 a7 b50800 b8 c0 b50801 b9 c0 1000000009 b50802 bd c0 b50803 bc c0 b50804 b9 0801 9b 0802 9b 0804 9b \
1000300008 6d 9d 1000300028 6d 9d 00|300010 300018 300030 2 0
/slot a6 d0 c0 a7 b50800 b8 ad 9b 00|100004
/slot a6 d0 c0 b50800 b9 ad 9b 00|100004
/slot a6 d0 c0 1000000009 b50800 bd ad 9b 00|100004
/slot a6 d0 c0 b50800 bc ad 9b 00|100004
/slot c0 b50800 b9 ad 9b b50801 b9 ad 9b 0801 9b 00|100000 100004 100000
";

/// `instance` waits for a word that can be one of each instance, over others, over the ends of images, throws, and
/// faults of the defining word itself, and makes no second one. It is a word as others are, which definitions may run.
const WAITING: &str = "\
/slot c0 b50800 b9 b50801 b9 0800 9b 0801 9b 00|300008 100000
/slot c0 c0 b50800 b9 b50801 b9 0800 9b 0801 9b 00|300008 100000
/slot c0 a7 b50800 ba b50801 b9 b50802 b9 0800 9d 0801 9b 0802 9b 00|2 300008 100000
/slot c0 b50800 bb b50801 b9 0800 9b 0801 9b 11 0800 86 9b 00|100000 300008 100000
/slot c0 a5 a7 b50800 be b50801 b9 9d a8 0800 9d 0801 9b 00|2 3 300008
/slot c0 b50800 b7 a8 c2 b50801 b9 0800 9d 0801 9b 00|3 300008
/slot c0 00 + /slot b50800 b9 0800 9b 00|300008
/slot c0 00 + /packages b50800 b9 0800 9b 00 + /slot 0800 00|300008 fault -260: no such instance$
/slot c0 011f b50800 b9 0800 9b 0127 0800 00|300010 fault -260: no such instance$
/slot c0 a4 0218 00 + /slot b50800 b9 0800 9b 00|fault -1: abort$300008
/slot b50800 b7 c0 a4 0218 c2 11 0800 0217 9d b50801 b9 0801 9b 00|-1 300008
/slot c0 b50800 b8 00 + /slot a7 b8 0800 9d 1000300008 6d 9d b50801 b9 0801 9b 00|fault -4: stack underflow$2 2 100000
/slot c0 b50800 bd 00 + /slot a7 bd 0800 9b 00|fault -4: stack underflow$300008
/slot c0 b50800 ba 00 + /slot b9 0800 9b 00|fault -4: stack underflow$300008
/slot c0 b9 00 + /slot b50800 b9 0800 9b 00|fault -29: compiler nesting$300008
/slot c0 b50800 b7 b9 00 + /slot b50800 b9 0800 9b 00|fault -29: compiler nesting$300008
/slot c0 120df108000000000000b50800b800 46 a6 11 023e 0217 9d a7 b8 0800 9d b50801 b9 0801 9b 00|-4 2 100000
/slot 120af108000000000000c000 46 a6 023e b50800 b9 0800 9b 00|300008
/slot b50800 b7 c0 c2 b50801 b9 0801 9b 00|100000
/slot b50800 b7 c0 c2 0800 b50801 b9 b50802 b9 0801 9b 0802 9b 00|300008 100000
/slot 11 c0 1d b50800 b9 0800 9b 00|300008
/slot 11 c0 0217 9d b50800 b9 0800 9b 00|0 300008
/slot 011f 11 c0 020a 0208 b50800 b9 0800 9b 00|300010
/slot ca046f70656e0800 bc 11 c0 c3 0800 a6 a5 a5 0203 020b 0205 9b b50801 b9 0801 9b 00|e0000004 300010
";

/// Two instances of a package each have their own, and begin with what the word began with, whatever the others hold
/// by then. A method reads and changes those of the instance that it is called for.
const OWN: &str = "\
/packages 011f 120170 0201 c0 ca0176 0800 b9 ca046f70656e0801 b7 a4 c2 ca037075740802 b7 0800 72 c2 \
ca03676f740803 b7 0800 6d c2 0127 a5 a5 120170 020f b50804 b8 a5 a5 120170 020f b50805 b8 \
1000000005 1203707574 0804 020e 1000000007 1203707574 0805 020e \
1203676f74 0804 020e 9d 1203676f74 0805 020e 9d 1203676f74 0209 00|5 7 fault -260: no such instance$
/packages 011f 120170 0201 ca046f70656e0800 b7 a4 c2 c0 a7 ca0176 0801 b8 ca037075740802 b7 c3 0801 c2 0127 \
a5 a5 120170 020f 46 a5 a5 120170 020f 46 1000000005 1203707574 10e0000008 020e 1000000007 1203707574 10e000000c 020e \
120176 10e0000008 020e 9d 120176 10e000000c 020e 9d a5 a5 120170 020f 46 120176 10e0000010 020e 9d 00|5 7 2
/slot ca046f70656e0800 b7 a4 c2 c0 a7 b50801 b8 b50802 b7 c3 0801 c2 a5 a5 0203 020b 0205 46 \
a6 11 0802 10e0000004 0208 0801 9d 11 0801 10e0000004 0208 9d 00|2 1
/slot ca046f70656e0800 b7 a4 c2 c0 1000000009 b50801 bd a5 a5 0203 020b 0205 46 \
a6 0801 75 a7 11 0801 10e0000004 0208 75 0801 71 9d 11 0801 10e0000004 0208 71 9d 00|1 2
/slot ca046f70656e0800 b7 a4 c2 c0 b50801 bc b50802 b7 c3 0801 c2 a5 a5 0203 020b 0205 46 \
11 a6 c3 0801 11 a7 11 0802 10e0000004 0208 0801 9d 11 0801 10e0000004 0208 9d 00|1 2
/slot ca046f70656e0800 b7 a4 c2 c0 a7 b50801 b8 a8 c3 0801 a5 a5 0203 020b 0205 46 \
0801 9d 11 0801 10e0000004 0208 9d 00|3 2
/slot ca046f70656e0800 b7 a4 c2 c0 b50801 b9 c0 1000000009 b50802 bd a4 0801 72 a4 0802 72 a5 a5 0203 020b 0205 46 \
11 0801 10e0000004 0208 6d 9d 11 0802 10e0000004 0208 6d 9d 0801 6d 9d 0802 6d 9d 00|0 0 -1 -1
/slot ca046f70656e0800 b7 a4 c2 c0 b50801 bc 11 a6 c3 0801 a5 a5 0203 020b 0205 46 \
11 0801 11 de 10e0000004 0208 9b 11 0801 10e0000004 0208 00|0 fault -263: bad handle$
/slot ca046f70656e0800 b7 a4 c2 c0 a7 b50801 b8 ca037075740802 b7 c3 0801 c2 a5 a5 0203 020b 0205 46 \
a8 1203707574 10e0000004 020e 00 + \
/slot 0801 9d 11 0801 10e0000004 0208 9d a6 c3 0801 11 0801 10e0000004 0208 9d 00|2 3 3
/slot c0 a7 b50800 b8 011f c0 a8 b50801 b8 0801 9d 11 0800 020a 0208 9d 0127 0800 9d 00|3 2 2
/slot c0 a7 ca0176 0800 b8 011f 120176 0209 9d 00|2
/slot c0 a7 b50801 b8 ca046f70656e0800 b7 0801 9d a8 c3 0801 0801 9d a4 c2 a4 c3 0801 a5 a5 0203 020b 0205 9b \
0801 9d 00|2 3 e0000004 -1
/slot ca046f70656e0800 b7 a4 c2 c0 a7 b50801 b8 ca05636c6f73650802 b7 0801 9d c2 a8 c3 0801 a5 a5 0203 020b 0205 0206 \
0801 9d 00|2 3
";

/// A new slot is given to the live instances of the active package, the oldest first, each the least free address;
/// which instance is current matters not.
const GIVEN: &str = "\
/slot ca046f70656e0800 b7 a4 c2 a5 a5 0203 020b 0205 46 c0 b50801 b9 0801 9b 11 0801 10e0000004 0208 9b 00|\
300010 300018
/slot ca046f70656e0800 b7 a4 c2 a5 a5 0203 020b 0205 46 a5 a5 0203 020b 0205 46 c0 b50801 b9 \
0801 9b 11 0801 10e0000004 0208 9b 11 0801 10e0000008 0208 9b 00|300018 300020 300028
/slot ca046f70656e0800 b7 a4 c2 a5 a5 0203 020b 0205 46 c0 a7 b50801 b8 0801 9d 11 0801 10e0000004 0208 9d \
1000300010 6d 9d 1000300018 6d 9d 00|2 2 2 2
/slot ca046f70656e0800 b7 a4 c2 a5 a5 0203 020b 0205 46 a5 a5 0203 020b 0205 46 10e0000004 0206 c0 b50801 b9 \
0801 9b 11 0801 10e0000008 0208 9b 00|300008 300018
/slot ca046f70656e0800 b7 a4 c2 a5 a5 0203 020b 0205 46 a5 a5 0203 020b 0205 46 10e0000004 0206 \
c0 1000000009 b50801 bd 0801 9b 11 0801 10e0000008 0208 9b 00|300018 300028
/slot ca046f70656e0800 b7 a4 c2 a5 a5 0203 020b 0205 46 00 + \
/slot c0 b50801 b9 0801 9b 11 0801 10e0000004 0208 9b 00|300018 300010
/slot 011f c0 b50800 b9 0800 9b 0127 c0 b50801 b9 0801 9b 00|300010 300008
/slot 011f 011f c0 b50800 b9 0800 9b 0127 c0 b50801 b9 0801 9b 0127 c0 b50802 b9 0802 9b 00|300018 300010 300008
/slot b50800 b7 011f a4 0218 c2 11 0800 0217 46 c0 a7 b50801 b8 11 0801 10e0000004 0208 9d 1000300010 6d 9d 0801 00|\
2 2 fault -260: no such instance$
/slot 011f c0 a7 120df108000000000000b50801b800 46 a6 11 023e 020a 0208 0801 9d 11 0801 020a 0208 00|\
2 fault -260: no such instance$
/slot ca046f70656e0800 b7 a4 c2 0203 0206 c0 a7 b50801 b8 a5 a5 10d0000008 0205 46 \
11 0801 10e0000004 0208 9d 1000300008 6d 9d 0801 00|2 2 fault -260: no such instance$
";

/// An instance that is opened takes the block of its arguments and then one for each slot, in the order of making, and
/// gives them all back when it is released.
const BLOCKS: &str = "\
/slot ca046f70656e0800 b7 a4 c2 c0 b50801 b9 c0 1000000009 b50802 bd c0 a7 b50803 b8 c0 b50804 b9 \
12026162 0203 020b 0205 46 11 0202 10e0000004 0208 46 9b 11 0801 10e0000004 0208 9b 11 0802 10e0000004 0208 9b \
1000300050 6d 9d 11 0804 10e0000004 0208 9b 00|300030 300038 300040 2 300058
/slot c0 a5 b50800 bd 0800 9b c0 b50801 b9 0801 9b 00|300008 300010
/slot c0 1000000008 b50800 bd c0 b50801 b9 0801 9b 00|300010
/slot ca046f70656e0800 b7 a4 c2 c0 b50801 b9 a5 a5 0203 020b 0205 46 a5 a5 0203 020b 0205 46 10e0000004 0206 \
1209616263646566676869 0203 020b 0205 46 11 0202 10e000000c 0208 46 9b 11 0801 10e000000c 0208 9b 00|300010 300030
/slot ca046f70656e0800 b7 a4 c2 c0 b50801 b9 c0 a7 b50802 b8 a5 a5 0203 020b 0205 46 \
a4 1000300020 72 a4 1000300028 72 10e0000004 0206 a5 a5 0203 020b 0205 46 \
11 0801 10e0000008 0208 47 9b 6d 9d 11 0802 10e0000008 0208 9d 00|300020 0 2
/slot ca046f70656e0800 b7 a4 c2 c0 b50801 b9 a5 a5 0203 020b 0205 46 1061620000 1000300018 72 10e0000004 0206 \
1000300018 a7 0203 020b 0205 46 11 0202 10e0000008 0208 90 11 0801 10e0000008 0208 47 9b 6d 9d 00|ab300018 0
/slot c0 b50801 b9 ca046f70656e0800 b7 0801 9b a5 c2 a5 a5 0203 020b 0205 46 a5 a5 0203 020b 0205 9d 00|300018 300018 0
/slot c0 b50801 b9 ca046f70656e0800 b7 0801 9b a4 0218 c2 a5 a5 0203 020b 11 0205 0217 46 \
a5 a5 0203 020b 11 0205 0217 9d 00|300018 300028 -1
/slot c0 b50800 b9 12026162 a5 a5 023f 0202 46 9b 0800 9b c0 b50801 b9 0801 9b 00|300010 300008 300000
/slot c0 b50800 b9 0800 9b a4 0800 72 00 + /slot 0800 9b 0800 6d 9d 00|300008 300008 0
/slot c0 a7 b50800 b8 a8 c3 0800 0800 9d 00 + /slot 0800 9d 0202 46 9b c0 b50801 b9 0801 9b 00|3 2 300000 300010
/slot ca046f70656e0800 b7 a4 c2 c0 a7 b50801 b8 a5 a5 0203 020b 0205 46 00 + \
/slot c0 b50802 b9 0802 9b 11 0802 10e0000004 0208 9b 00|300028 300020
/slot c0 b50800 b9 a4 0218 00 + /slot 0800 9b 00|fault -1: abort$300008
/slot 011f c0 b50800 b9 a4 0218 00 + /slot 011f 0202 46 9b 00|fault -1: abort$300008
";

/// Where the blocks find no room, all or none are taken: the word isn't made, and its number and `instance` wait for
/// another one, or no instance is opened. Where no instance is live, no room is needed.
const FULL: &str = "\
/slot c0 100001fff8 b50800 bd 0800 9b ad 9b 00|300008 100000
/slot c0 100001fff9 b50800 bd 00 + /slot 0800 00|fault -8: dictionary overflow$fault -256: fcode not assigned$
/slot c0 100001fff9 b50800 bd 00 + /slot a8 bd 0800 9b b50801 b9 0801 9b 00|fault -8: dictionary overflow$300008 100000
/slot c0 a4 b50800 bd 00|fault -8: dictionary overflow$
/slot ca046f70656e0800 b7 a4 c2 a5 a5 0203 020b 0205 46 c0 1000010000 b50801 bd 00 + \
/slot 100000fff8 bd 0801 9b 11 0801 10e0000004 0208 9b 00|fault -8: dictionary overflow$310008 300010
/slot ca046f70656e0800 b7 a4 c2 a5 a5 0203 020b 0205 46 c0 1000010000 120df108000000000000b50801bd00 46 a6 \
11 023e 0217 9d b9 0801 9b 11 0801 10e0000004 0208 9b 11 0801 9b 00|-8 300010 300018 c0000530
/slot ca046f70656e0800 b7 a4 c2 1000100000 100001fff0 0203 020b 0205 46 c0 120df108000000000000b50801b900 46 a6 \
11 023e 0217 9d 011f 0202 46 9b 00|-8 31fff8
/slot ca046f70656e0800 b7 a4 c2 1000100000 100001fff8 0203 020b 0205 46 c0 a7 b50801 b8 00 + \
/slot 10e0000004 0206 a7 b8 0801 9d 1000300008 6d 9d 00|fault -8: dictionary overflow$2 2
/slot ca046f70656e0800 b7 a4 c2 1000100000 100001fff8 0203 020b 0205 46 c0 b50801 bc 00|\
fault -8: dictionary overflow$
/slot ca046f70656e0800 b7 a4 c2 1000100000 100001fff8 0203 020b 0205 46 c0 a7 b50801 ba 0801 9d 00|2
/slot ca046f70656e0800 b7 a4 c2 c0 1000010000 b50801 bd a5 a5 0203 020b 11 0205 0217 9d 9b 9d 9d \
011f 0203 9b 0202 46 9b 00|-8 d0000008 0 0 e0000004 310008
/packages 011f 120170 0201 ca046f70656e0800 b7 a4 c2 0127 1000100000 100001fff8 120170 020f 46 0203 0206 \
c0 1000000009 b50801 bd 11 0801 9b 00|c0000530
";

/// Away from home, where the current instance is another package's or was released, there is no slot to read or to
/// store into; called for an instance of its package a word is at home again.
const AWAY: &str = "\
/slot c0 a7 b50800 b8 011f 0800 00|fault -260: no such instance$
/slot c0 a7 b50800 b8 c0 b50801 b9 c0 a7 b50802 bd c0 b50803 bc 11 7b c3 0803 011f \
11 0800 0217 9d 11 0801 0217 9d 11 0802 0217 9d 11 0803 0217 9d 00|-104 -104 -104 -104
/slot c0 a7 b50800 b8 c0 b50801 b9 c0 a7 b50802 bd c0 b50803 bc 11 7b c3 0803 0203 0206 \
11 0800 0217 9d 11 0801 0217 9d 11 0802 0217 9d 0803 00|-104 -104 -104 fault -260: no such instance$
/slot c0 a7 b50800 b8 011f 11 0800 1d 00|fault -260: no such instance$
/slot c0 a7 b50800 b8 011f 11 0800 11 1d 0217 9d 9d 00|-104 0
/slot 011f c0 a7 b50800 b8 0127 0800 00|fault -260: no such instance$
/packages c0 a7 b50800 b8 0800 9d 00 + /slot 0800 00|2 fault -260: no such instance$
/packages 011f 120170 0201 c0 a7 b50800 b8 0127 011f 120170 0201 0800 00|fault -260: no such instance$
/slot c0 a7 b50800 b8 011f c0 a8 b50801 b8 0801 9d 11 0800 020a 0208 9d 11 0801 020a 11 0208 0217 9d 00|3 2 -104
/slot c0 a7 b50800 b8 011f c3 0800 00|fault -4: stack underflow$
/slot c0 a7 b50800 b8 011f a5 c3 0800 00|fault -260: no such instance$
/slot c0 b50800 bc 011f c3 0800 00|fault -4: stack underflow$
/slot c0 b50800 bc 011f a5 c3 0800 00|fault -260: no such instance$
/slot c0 a7 b50800 b8 0203 0206 a5 c3 0800 00|fault -260: no such instance$
/slot c0 a7 b50800 b8 b50801 b7 c3 0800 c2 011f a8 11 0801 0217 9d 9d 0127 0800 9d 00|-104 3 2
/slot c0 b50800 bc 011f 11 0800 de 00|fault -260: no such instance$
/slot c0 b50800 bc 011f 11 0800 11 de 0217 9d 9b 00|-104 c000052c
/slot c0 b50800 bc b50801 bc 11 0800 c3 0801 11 a8 c3 0800 0801 9d 011f 11 0801 0217 9d 00|3 -104
/slot c0 a7 b50800 b8 011f 11 0800 020a 0208 9d 0203 9b 0800 00|2 e0000004 fault -260: no such instance$
/slot c0 a7 b50800 b8 011f 11 0800 0203 0208 00|fault -260: no such instance$
/slot c0 a7 b50800 b8 011f 11 0800 0203 11 0208 0217 9d 9d 9d 0203 9b 00|-104 0 0 e0000004
/slot c0 a7 b50800 b8 ca016d0801 b7 0800 9d 0203 0206 0800 c2 011f 12016d 0209 00|2 fault -260: no such instance$
/slot c0 b50800 bc 011f c0 a7 b50801 b8 0127 11 0801 c3 0800 0800 00|fault -260: no such instance$
";

/// What can't be done with such words: `to` stores into values and defers alone, `behavior` is that of a defer, and
/// none was created in data space.
const REFUSED: &str = "\
/slot c0 b50800 b9 a6 c3 0800 00|fault -32: invalid name argument$
/slot c0 a7 b50800 bd a6 c3 0800 00|fault -32: invalid name argument$
/slot c0 a7 b50800 b8 c3 0800 00|fault -4: stack underflow$
/slot c0 b50800 b9 c3 0800 00|fault -4: stack underflow$
/slot c0 a7 b50800 bd c3 0800 00|fault -4: stack underflow$
/slot c0 b50800 bc c3 0800 00|fault -4: stack underflow$
/slot c0 b50800 b9 b50801 b7 c3 0800 c2 a8 11 0801 0217 9d 9d 00|-20 3
/slot c0 a7 b50800 b8 11 0800 de 00|fault -32: invalid name argument$
/slot c0 a7 b50800 b8 11 0800 11 de 0217 9d 9b 00|-20 c000052c
/slot c0 b50800 b9 11 0800 11 de 0217 9d 9b 00|-20 c000052c
/slot c0 a7 b50800 bd 11 0800 11 de 0217 9d 9b 00|-20 c000052c
/slot c0 b50800 b9 11 0800 86 00|fault -31: not a created word$
/slot c0 a7 b50800 b8 11 0800 11 86 0217 9d 9b 00|-1f c000052c
/slot c0 b50800 b9 11 0800 11 86 0217 9d 9b 00|-1f c000052c
/slot c0 a7 b50800 bd 11 0800 11 86 0217 9d 9b 00|-1f c000052c
/slot c0 b50800 bc 11 0800 11 86 0217 9d 9b 00|-1f c000052c
/slot c0 b50800 b9 0800 85 00|fault -263: bad handle$
/slot c0 b8 00|fault -29: compiler nesting$
/slot c0 b50800 b7 b8 00|fault -29: compiler nesting$
";

/// Chains of defers, in which both sorts stand: what an instance's slot holds leads on.
const CHAINS: &str = "\
/slot c0 b50800 bc b50801 bc c0 b50802 bc 11 0801 c3 0800 11 0802 c3 0801 11 a8 c3 0802 0800 9d 00|3
/slot c0 b50800 bc b50801 bc 11 0801 c3 0800 11 0800 c3 0801 0800 00|fault -263: bad handle$
/slot c0 b50800 bc b50801 bc 11 0801 c3 0800 11 0800 c3 0801 0801 00|fault -263: bad handle$
/slot c0 b50800 bc 11 0800 c3 0800 0800 00|fault -263: bad handle$
/slot c0 b50800 bc b50801 bc 11 0800 c3 0801 0801 00|fault -263: bad handle$
/slot c0 b50800 bc a6 c3 0800 0800 00|fault -263: bad handle$
/slot c0 b50800 bc 11 b7 c3 0800 0800 00|fault -14: compile-only word$
/slot c0 a7 b50800 b8 c0 b50801 bc 11 0800 c3 0801 0801 9d 00|2
/slot c0 b50800 bc 11 0217 c3 0800 11 a8 0800 9d 9d 00|0 3
/slot ca046f70656e0800 b7 a4 c2 c0 b50801 bc b50802 bc 11 0801 c3 0802 11 0802 c3 0801 a5 a5 0203 020b 0205 46 \
b50803 b7 c3 0801 c2 11 a8 11 0803 10e0000004 0208 11 0802 10e0000004 0208 9d 0802 00|3 fault -263: bad handle$
/slot ca046f70656e0800 b7 a4 c2 c0 b50801 bc b50802 b7 c3 0801 c2 a5 a5 0203 020b 0205 46 \
11 1d 11 0802 10e0000004 0208 11 a8 11 0801 10e0000004 0208 9d 00|3
/slot ca046f70656e0800 b7 a4 c2 c0 b50801 bc b50802 b7 c3 0801 c2 a5 a5 0203 020b 0205 46 \
11 0208 c3 0801 11 0203 11 0802 10e0000004 0208 11 0801 10e0000004 0801 9b 0203 9b 00|e0000004 e0000000
";

/// Such words as methods: one is found as any other, and a method that is deferred runs what the instance's slot holds
/// for which it is called. The `open` of a new instance reads the slot's first value.
const METHODS: &str = "\
/slot c0 ca0176 0800 b9 120176 10d0000008 0207 9d 9b 120176 0203 020e 9b 00|-1 c000052c 300008
/slot c0 b6 0176 0800 b9 120176 10d0000008 0207 9d 0800 9b 00|0 300008
/slot c0 ca0176 0800 b9 ca0176 0801 b9 120176 0203 020e 9b 0800 9b 00|100000 300008
/slot c0 ca0176 0800 b8 00 + /slot 120176 10d0000008 0207 9d a7 b8 120176 0203 020e 9d 00|fault -4: stack underflow$0 2
/slot c0 100001fff9 ca0176 0800 bd 00 + /slot 120176 10d0000008 0207 9d 00|fault -8: dictionary overflow$0
/slot a7 ca0176 0800 ba c0 100001fff9 ca0176 0801 bd 00 + /slot 120176 0203 020e 9d 00|fault -8: dictionary overflow$2
/slot ca046f70656e0800 b7 a4 c2 c0 ca016d0801 bc b50802 b7 c3 0801 c2 a5 a5 0203 020b 0205 46 11 a6 c3 0801 \
11 0203 11 0802 10e0000004 0208 12016d 0203 020e 9d 12016d 10e0000004 020e 9b 00|1 e0000004
/slot c0 ca016d0800 bc 11 0203 c3 0800 011f 12016d 0209 9b 0203 9b 00|e0000000 e0000004
/slot c0 ca046f70656e0800 bc 11 a4 c3 0800 a5 a5 0203 020b 0205 00|fault -263: bad handle$
/slot c0 ca046f70656e0800 bc 11 a4 c3 0800 a5 a5 0203 020b 11 0205 0217 9d 0203 9b 10e0000004 020b 9b 00|\
-107 e0000000 d0000008
/slot c0 b50801 bc ca046f70656e0800 b7 11 a4 c3 0801 0801 c2 a5 a5 0203 020b 0205 9b \
11 0801 de 9b 11 0801 11 de 10e0000004 0208 9b 00|e0000004 0 c00002d8
/slot c0 a6 ca046f70656e0800 b8 a5 c3 0800 a5 a5 0203 020b 0205 9b 00|e0000004
/slot c0 a5 ca046f70656e0800 b8 a6 c3 0800 a7 a5 a5 0203 020b 0205 9d 9d 10e0000004 020b 00|\
0 2 fault -260: no such instance$
/slot c0 ca046f70656e0800 b9 a5 a5 0203 020b 0205 9b 00|e0000004
/slot ca046f70656e0800 b7 a4 c2 c0 ca05636c6f73650801 bc a5 a5 0203 020b 0205 46 10e0000004 11 0206 0217 9d \
b50802 b7 c3 0801 c2 11 0203 11 0802 10e0000004 0208 10e0000004 0206 9b 10e0000004 020b 00|\
-107 e0000004 fault -260: no such instance$
";

#[test]
fn words_are_of_each_instance(rt: HostRuntime) -> Result<(), Fail> {
    check_on_machines::<PrintRows, _>(&rt, rt.alloc(), KINDS)?;
    check_on_machines::<PrintRows, _>(&rt, rt.alloc(), WAITING)
}

#[test]
fn instances_have_their_own(rt: HostRuntime) -> Result<(), Fail> {
    check_on_machines::<PrintRows, _>(&rt, rt.alloc(), OWN)?;
    check_on_machines::<PrintRows, _>(&rt, rt.alloc(), GIVEN)
}

#[test]
fn slots_find_room(rt: HostRuntime) -> Result<(), Fail> {
    check_on_machines::<PrintRows, _>(&rt, rt.alloc(), BLOCKS)?;
    check_on_machines::<PrintRows, _>(&rt, rt.alloc(), FULL)
}

#[test]
fn slots_are_used_at_home(rt: HostRuntime) -> Result<(), Fail> {
    check_on_machines::<PrintRows, _>(&rt, rt.alloc(), AWAY)?;
    check_on_machines::<PrintRows, _>(&rt, rt.alloc(), REFUSED)
}

#[test]
fn slots_defer(rt: HostRuntime) -> Result<(), Fail> {
    check_on_machines::<PrintRows, _>(&rt, rt.alloc(), CHAINS)?;
    check_on_machines::<PrintRows, _>(&rt, rt.alloc(), METHODS)
}

/// Behind 8,192 words, of which the last is one of each instance, no other is made, and no block is taken for one.
#[test]
fn words_are_counted(rt: HostRuntime) -> Result<(), Fail> {
    let image = image_of(
        rt.alloc(),
        "1000001fff b50800 bb a6 1f 47 34 14fff7 46 c0 b50800 b9 0800 9b \
         c0 120df108000000000000b50801b900 46 a6 11 023e 0217 9d 011f 0202 46 9b 0801 00",
    )?;
    let alloc = rt.alloc();
    let said = after_run(alloc, &image, 99_999, |run| printed(alloc, &run.0))?;
    let wanted = "300008 -8 300010 fault -256: fcode not assigned$";
    assert!(rt; said.as_str() == wanted);
    Ok(())
}

/// Images whose words are one of each instance, one with a fault of its defining word and some whose deferred methods
/// grow something, and behind `|` what they print and the nodes that are there then.
const GROWING: &str = "\
c0 a7 b50800 b8 ca046f70656e0801 b7 0800 9d a4 c2 c0 b50802 b9 a5 a5 0203 020b 0205 9b 0802 9b \
c0 1000000009 b50803 bd 0803 9b 11 0803 10e0000004 0208 9b 011f 0202 46 9b 00|\
2 e0000004 300010 300030 300040 300050 ;/slot name=736c6f7400;/slot/
ca046f70656e0800 b7 a4 c2 a5 a5 0203 020b 0205 46 c0 a7 ca0176 0801 b8 120176 0203 020e 9d 120176 10e0000004 020e 9d \
120176 10d0000008 0207 9d 9b 00|2 2 -1 c0000530 ;/slot name=736c6f7400
c0 100001fff9 120df108000000000000b50800bd00 46 a6 11 023e 0217 9d b9 0800 9b 00|-8 300008 ;/slot name=736c6f7400
c0 a7 b50801 b8 ca046f70656e0800 bc 11 011f c3 0800 a6 a5 a5 0203 020b 0205 9b 0203 9b 0127 0203 9b 0801 9d \
011f 0202 46 9b 00|e0000004 e0000000 e0000004 2 300020 ;/slot name=736c6f7400;/slot/;/slot/
c0 ca016d0800 bc 11 011f c3 0800 12016d 0203 020e 0203 9b 11 0127 0203 0208 0203 9b \
c0 ca05636c6f73650801 bc 11 011f c3 0801 0203 0206 0203 9b 00|\
e0000000 e0000000 e0000000 ;/slot name=736c6f7400;/slot/;/slot/
";

/// Growths are refused in turn: a slot that was made for a word which found no memory is undone, too.
#[test]
fn refused_memory(rt: HostRuntime) -> Result<(), Fail> {
    check_in_turn(&rt, rt.alloc(), GROWING)
}
