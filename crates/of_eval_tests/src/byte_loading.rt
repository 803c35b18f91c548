//! `byte-load`: images inside images, and what is refused.

use crate::tokens::differing;
use std::test::Fail;

/// Images in strings, in the heap, and with bytes 4 apart in the data region: each line is the tokens of the image that
/// loads them, and what it makes.
const LOADING: &str = "\
120bf108000000000000a69d00 46 a6 023e a7 9d 00|10 0/0 1 2 
120ef1080000000000001201419d9b00 46 a6 023e 00|9 0/0 1 600027 
1000000020 8b 47 121cf108000000000000 120bf108000000000000a89d00 46a6023e a79d00 4a 49 78 a6 023e a6 9d 00\
|22 0/0 3 2 1 
b50800 b7 a6 023e a7 9d c2 120bf108000000000000a69d00 46 0800 a8 9d 00|21 0/0 1 2 3 
120bf108000000000000a69d00 46 a6 11023e 1d a7 9d 00|11 0/0 1 2 
120bf108000000000000a69d00 46 a6 11023e 0217 9d 00|10 0/0 1 0 
120ff108000000000000b50800b7a6c200 46 a6 023e 0800 9d 00|14 0/0 1 
120df108000000000000b50800b700 46 a6 023e|7 0/0 fault -29: compiler nesting$
120bf108000000000000a63000 46 a6 023e a7 9d 00|10 0/0 2 
1209f10800000000000031 46 a6 023e|5 0/0 fault -25: return stack imbalance$
1209f10800000000000033 46 a6 023e|5 0/0 fault -25: return stack imbalance$
1208f108000000000000 46 a6 023e|5 0/0 fault -4: stack underflow$
120efd080000000000001302a6a79d00 46 a6 023e 130003a6 a5 9d 00|12 0/0 2 0 
1000000010 8b 1000000008 8b 46 47 1210f108000000000000a69d7b7b7b7b7b7b 4a 49 78 a6 023e\
|21 0/0 1 fault -257: image ended$
ad 10000000f3 48 75 10000000a6 48 1000000020 1e 75 100000009d 48 1000000024 1e 75 a6 023e 00|20 0/0 1 
10000000fc a6 30 a6 1f 47 34 14fff9 46 120bf108000000000000a69d00 46 a6 023e 00|1774 0/0 1 
";

/// What is thrown in an image is caught where it was loaded from, and that is read on.
const CATCHING: &str = "\
120bf108000000000000a60218 46 a6 11023e 0217 9d a7 9d 00|11 2/0 1 2 
120bf108000000000000a60218 46 a6 11023e 0217 9d 1201419d9b 00|12 2/0 1 1 60001f 
1000000020 8b 47 1219f108000000000000 120bf108000000000000a60218 46a6023e 4a 49 78 a6 11023e 0217 9d 1201419d9b 00\
|21 2/0 1 1 600036 
120bf108000000000000a69d00 46 a7 11023e 0217 9f 00|7 3/0 60000a 2 -18 
";

/// Each fault, and of two that come together the first in the written order. An image that ends with its region takes
/// all the room that is left, so that one which it loads is shorter than a header.
const REFUSING: &str = "\
b50800 b7 a6 023e c2 110800 a4 1000000800 db b50801 b7 0800|14 0/0 fault -29: compiler nesting$
023e|1 0/0 fault -4: stack underflow$
a6 023e|2 0/0 fault -4: stack underflow$
a5 a6 023e|3 0/0 fault -9: invalid memory address$
1080000000 a6 023e|3 0/0 fault -9: invalid memory address$
1000400000 a6 023e|3 0/0 fault -9: invalid memory address$
a5 a7 023e|3 0/0 fault -9: invalid memory address$
10000000fd a6 30 a6 1f 47 34 14fff9 46 a5 a6 023e|1776 0/0 fault -9: invalid memory address$
120bf108000000000000a69d00 46 a7 023e|4 0/0 fault -24: invalid numeric argument$
120bf108000000000000a69d00 46 a5 023e|4 0/0 fault -24: invalid numeric argument$
ad a7 023e|3 0/0 fault -24: invalid numeric argument$
10000000fd a6 30 a6 1f 47 34 14fff9 46 ad a7 023e|1776 0/0 fault -24: invalid numeric argument$
ad a6 023e|3 0/0 fault -257: image ended$
1208f008000000000000 46 a6 023e|4 0/0 fault -257: image ended$
10000000f1 1000500ff9 75 1000500ff9 a6 023e|6 0/0 fault -257: image ended$
10000000f1 1000500ff8 75 1000500ff8 a6 023e|7 0/0 fault -257: image ended$
10000000f2 1000500ff2 75 1000500ff2 a6 023e|6 0/0 fault -257: image ended$
10000000f2 1000500ff1 75 1000500ff1 a6 023e|7 0/0 fault -257: image ended$
10000000f3 1000500fe4 75 1000500fe4 a6 023e|6 0/0 fault -257: image ended$
10000000f3 1000500fe3 75 1000500fe3 a6 023e|7 0/0 fault -257: image ended$
10000000fd 1000500ff8 75 1000500ff8 a6 023e|7 0/0 fault -257: image ended$
120cf108000000000000ada6023e ad 49 78 ad a6 023e|10 0/0 fault -257: image ended$
121cf108000000000000 120bf108000000000000a89d00 46a6023e a79d00 46 a6 023e|8 0/0 fault -257: image ended$
10000000fd a6 30 a6 1f 47 34 14fff9 46 ad a6 023e|1776 0/0 fault -257: image ended$
10000000fd a6 30 a6 1f 47 34 14fff9 46 120bf108000000000000a69d00 46 a6 023e|1777 0/0 \
fault -5: return stack overflow$
";

#[test]
fn loading(rt: HostRuntime) -> Result<(), Fail> {
    assert_eq!(rt; differing(rt.alloc(), LOADING)?.as_str(), "");
    Ok(())
}

#[test]
fn catching(rt: HostRuntime) -> Result<(), Fail> {
    assert_eq!(rt; differing(rt.alloc(), CATCHING)?.as_str(), "");
    Ok(())
}

#[test]
fn refusing(rt: HostRuntime) -> Result<(), Fail> {
    assert_eq!(rt; differing(rt.alloc(), REFUSING)?.as_str(), "");
    Ok(())
}
