//! Replies at the edges of their grammar, in pieces of every length. What each stream has follows from
//! `docs/TRACE.md`, under *Replies*.
//!
//! A row gives the slots of a reply, the decimals of its reals, and a stream: `skipped int, real [-20;20] at 2: "1 .5 "`.
//! A slot has a kind, and maybe a range of raw numbers; values of a skipped one are not kept. A stream is parts that
//! follow each other, as `"t" + 9 of " "`, and it ends there, unless more may come. What is wanted is all that is found in
//! the stream, in order.

ghost use Rattle.std.specs.Prelude.{◌≡◌, ◌≤◌, ◌<◌, ◌+◌, ◌^◌, length, true};
ghost use Rattle.lt_num.specs.Bounds.{most_decimals};
ghost use Rattle.lt_rif.specs.Reading.{reading, given};

use crate::rows::{bytes_of, check, halves, kind_of};
use crate::subject::Subject;
use lt_num::{Interval, Kind, Value};
use lt_rif::{Closing, Fed, Reader, Slot};
use std::alloc::Global;
use std::test::Fail;

// Words of truths; at last where false alone is in range.
const TRUTHS: &str = r##"
bool at 0: "t f T F true false 1 0 " ==> whole t at 2; whole f at 4; whole t at 6; whole f at 8; whole t at 13; whole f at 19; whole t at 21; whole f at 23; short 0
bool at 0: "True " ==> malformed NotAValue 0
bool at 0: "tt " ==> malformed NotAValue 0
bool at 0: "2 " ==> malformed NotAValue 0
bool at 0: "01 " ==> malformed NotAValue 0
bool at 0: "TRUE " ==> malformed NotAValue 0
bool at 0: "False " ==> malformed NotAValue 0
bool at 0: "t. " ==> malformed NotAValue 0
bool at 0: "+1 " ==> malformed NotAValue 0
bool at 0: "-0 " ==> malformed NotAValue 0
bool at 0: "t" ==> whole t at 1; short 0
bool at 0: "10 " ==> malformed NotAValue 0
bool [0;0] at 0: "f t " ==> whole f at 2; malformed OutOfRange 2
"##;

// Words of ints; at last in the range from 0 to 9.
const INTS: &str = r##"
int at 2: "0 -0 +5 -7 007 " ==> whole 0 at 2; whole 0 at 5; whole 5 at 8; whole -7 at 11; whole 7 at 15; short 0
int at 2: "1000000000000 -1000000000000 " ==> whole 1000000000000 at 14; whole -1000000000000 at 29; short 0
int at 2: "1000000000001 " ==> malformed OutOfRange 0
int at 2: "-1000000000001 " ==> malformed OutOfRange 0
int at 2: "000000000000000012 " ==> whole 12 at 19; short 0
int at 2: "0000000000000000012 " ==> malformed NotAValue 0
int at 2: "999999999999999999 " ==> malformed OutOfRange 0
int at 2: "+ " ==> malformed NotAValue 0
int at 2: "- " ==> malformed NotAValue 0
int at 2: "+-1 " ==> malformed NotAValue 0
int at 2: "1.0 " ==> malformed NotAValue 0
int at 2: "1e0 " ==> malformed NotAValue 0
int at 2: "12x " ==> malformed NotAValue 0
int at 2: "t " ==> malformed NotAValue 0
int at 2: "+0 -000 +000000000000000012 -000000000000000012 " ==> whole 0 at 3; whole 0 at 8; whole 12 at 28; whole -12 at 48; short 0
int at 2: "-0000000000000000012 " ==> malformed NotAValue 0
int at 2: "000000000000000000 " ==> whole 0 at 19; short 0
int at 2: "-999999999999999999 " ==> malformed OutOfRange 0
int at 2: "++1 " ==> malformed NotAValue 0
int at 2: "1+ " ==> malformed NotAValue 0
int at 2: "- 1 " ==> malformed NotAValue 0
int at 2: "1_0 " ==> malformed NotAValue 0
int at 2: "\xd9\xa1 " ==> malformed NotAValue 0
int at 2: "1000000000000" ==> whole 1000000000000 at 13; short 0
int at 2: "1000000000001" ==> malformed OutOfRange 0
int [0;9] at 2: "0 9 10 " ==> whole 0 at 2; whole 9 at 4; malformed OutOfRange 4
int [0;9] at 2: "-1 " ==> malformed OutOfRange 0
int [0;9] at 2: "9" ==> whole 9 at 1; short 0
int [0;9] at 2: "1000000000001 " ==> malformed OutOfRange 0
"##;

// Words of reals, by their raw numbers: with two decimals, without, with six, and in the range from 0.00 to 1.00.
const REALS: &str = r##"
real at 2: "-1.5e-1 12 +.5 7. " ==> whole -15 at 8; whole 1200 at 11; whole 50 at 15; whole 700 at 18; short 0
real at 2: ". " ==> malformed NotAValue 0
real at 2: "-. " ==> malformed NotAValue 0
real at 2: "e5 " ==> malformed NotAValue 0
real at 2: ".e5 " ==> malformed NotAValue 0
real at 2: "5e " ==> malformed NotAValue 0
real at 2: "5e- " ==> malformed NotAValue 0
real at 2: "5e1.0 " ==> malformed NotAValue 0
real at 2: "1e2e3 " ==> malformed NotAValue 0
real at 2: "1.2.3 " ==> malformed NotAValue 0
real at 2: "1e3 1E+3 1e-2 1e-3 5e-3 -5e-3 49e-4 " ==> whole 100000 at 4; whole 100000 at 9; whole 1 at 14; whole 0 at 19; whole 1 at 24; whole -1 at 30; whole 0 at 36; short 0
real at 2: "1e-999 -1e-999 0e999 0.000e999 1e010 " ==> whole 0 at 7; whole 0 at 15; whole 0 at 21; whole 0 at 31; whole 1000000000000 at 37; short 0
real at 2: "1e999 " ==> malformed OutOfRange 0
real at 2: "1e1000 " ==> malformed NotAValue 0
real at 2: "1e0010 " ==> malformed NotAValue 0
real at 2: "123456789012345678.123456789012345678e-8 " ==> whole 123456789012 at 41; short 0
real at 2: "0.123456789012345678 999999999999999999e-18 " ==> whole 12 at 21; whole 100 at 44; short 0
real at 2: "0.1234567890123456789 " ==> malformed NotAValue 0
real at 2: "0000000000000000001.0 " ==> malformed NotAValue 0
real at 2: "10000000000.00499 -10000000000.00499 " ==> whole 1000000000000 at 18; whole -1000000000000 at 37; short 0
real at 2: "10000000000.005 " ==> malformed OutOfRange 0
real at 2: "nan " ==> malformed NotAValue 0
real at 2: "1,5 " ==> malformed NotAValue 0
real at 2: "0x1 " ==> malformed NotAValue 0
real at 2: "1.e2 .5e1 5.e+1 0.e0 00.50 " ==> whole 10000 at 5; whole 500 at 10; whole 5000 at 16; whole 0 at 21; whole 50 at 27; short 0
real at 2: "000000000000000000.000000000000000000 " ==> whole 0 at 38; short 0
real at 2: "000000000000000000.0000000000000000000 " ==> malformed NotAValue 0
real at 2: "999999999999999999e-999 " ==> whole 0 at 24; short 0
real at 2: "0.000000000000000001e20 " ==> whole 10000 at 24; short 0
real at 2: "0.004999999999999999 -0.004999999999999999 0.005 " ==> whole 0 at 21; whole 0 at 43; whole 1 at 49; short 0
real at 2: "0.015 -0.015 0.025 " ==> whole 2 at 6; whole -2 at 13; whole 3 at 19; short 0
real at 2: "4.99e-3 5.00e-3 0.5e-2 " ==> whole 0 at 8; whole 1 at 16; whole 1 at 23; short 0
real at 2: "1e10 -1e10 1E010 " ==> whole 1000000000000 at 5; whole -1000000000000 at 11; whole 1000000000000 at 17; short 0
real at 2: "1e11 " ==> malformed OutOfRange 0
real at 2: "-1e999 " ==> malformed OutOfRange 0
real at 2: ".e0 " ==> malformed NotAValue 0
real at 2: "+. " ==> malformed NotAValue 0
real at 2: "+e1 " ==> malformed NotAValue 0
real at 2: "1E " ==> malformed NotAValue 0
real at 2: "1e+ " ==> malformed NotAValue 0
real at 2: "1e+-1 " ==> malformed NotAValue 0
real at 2: "1e-0001 " ==> malformed NotAValue 0
real at 2: "1e5. " ==> malformed NotAValue 0
real at 2: "1.. " ==> malformed NotAValue 0
real at 2: "1.-2 " ==> malformed NotAValue 0
real at 2: "- 1.0 " ==> malformed NotAValue 0
real at 2: "inf " ==> malformed NotAValue 0
real at 2: "1d0 " ==> malformed NotAValue 0
real at 2: "0e999" ==> whole 0 at 5; short 0
real at 2: "1e-999" ==> whole 0 at 6; short 0
real at 2: "1e" ==> malformed NotAValue 0
real at 2: "." ==> malformed NotAValue 0
real at 0: "0.5 -0.5 1.5 -2.5 0.49 1e12 " ==> whole 1 at 4; whole -1 at 9; whole 2 at 13; whole -3 at 18; whole 0 at 23; whole 1000000000000 at 28; short 0
real at 0: "0.499999999999999999 0.500000000000000000 -0.500000000000000000 " ==> whole 0 at 21; whole 1 at 42; whole -1 at 64; short 0
real at 0: "1000000000000.4 -1000000000000.4 1000000000000.5 " ==> whole 1000000000000 at 16; whole -1000000000000 at 33; malformed OutOfRange 33
real at 0: "3.5 4.5 -3.5 " ==> whole 4 at 4; whole 5 at 8; whole -4 at 13; short 0
real at 6: "0.0000005 1000000.0000004 -.0000004 " ==> whole 1 at 10; whole 1000000000000 at 26; whole 0 at 36; short 0
real at 6: "1000000.0000005 " ==> malformed OutOfRange 0
real [0;100] at 2: "1.0049 -0.0049 1.005 " ==> whole 100 at 7; whole 0 at 15; malformed OutOfRange 15
real [0;100] at 2: "-0.005 " ==> malformed OutOfRange 0
"##;

// Blanks, comments and ends, for one truth.
const WORDS: &str = r##"
bool at 0: "  t\t\r\nf\r\n" ==> whole t at 4; whole f at 8; short 1
bool at 0: "t" ==> whole t at 1; short 0
bool at 0: "t" and more ==> needs
bool at 0: "x" and more ==> needs
bool at 0: "x" ==> malformed NotAValue 0
bool at 0: "" ==> short 0
bool at 0: "" and more ==> needs
bool at 0: "\n\n" ==> short 2
bool at 0: "#outs t #outs f " ==> whole t at 8; whole f at 16; short 0
bool at 0: "#outsx t\nf " ==> whole f at 11; short 0
bool at 0: "#o" ==> short 2
bool at 0: "#outs" ==> short 5
bool at 0: "#outs" and more ==> needs
bool at 0: "#out s\nt " ==> whole t at 9; short 0
bool at 0: "# t\nf " ==> whole f at 6; short 0
bool at 0: "-- t\nf " ==> whole f at 7; short 0
bool at 0: "--t\rt\nf " ==> whole f at 8; short 0
bool at 0: "- t\n" ==> malformed NotAValue 0
bool at 0: "t--x f " ==> malformed NotAValue 0
bool at 0: "t#x " ==> malformed NotAValue 0
bool at 0: "#locs t\nf " ==> whole f at 10; short 0
bool at 0: "#a #b\n#c\nt " ==> whole t at 11; short 0
bool at 0: "#x" and more ==> needs
bool at 0: "\x00 " ==> malformed NotAValue 0
bool at 0: "t\x0bf " ==> malformed NotAValue 0
bool at 0: "\xff " ==> malformed NotAValue 0
bool at 0: "--" ==> short 2
bool at 0: "#" ==> short 1
bool at 0: "-" ==> malformed NotAValue 0
bool at 0: "--\nt " ==> whole t at 5; short 0
bool at 0: "#\nt " ==> whole t at 4; short 0
bool at 0: "#OUTS t\nf " ==> whole f at 10; short 0
bool at 0: "#outs# t\nf " ==> whole f at 11; short 0
bool at 0: "# #outs t\nf " ==> whole f at 12; short 0
bool at 0: "#outs#outs t\nf " ==> whole f at 15; short 0
bool at 0: "#outsx" ==> short 6
bool at 0: "#outs\n#outs\tt\n" ==> whole t at 14; short 0
bool at 0: "t#outs " ==> malformed NotAValue 0
bool at 0: "t\x0cf " ==> malformed NotAValue 0
bool at 0: "#outs-- t\nf " ==> whole f at 12; short 0
bool at 0: "--#\nt " ==> whole t at 6; short 0
bool at 0: "-- -- t\nf " ==> whole f at 10; short 0
bool at 0: "#x\r t\n f" ==> whole f at 8; short 0
bool at 0: "#o t\nf " ==> whole f at 7; short 0
bool at 0: "f#" ==> malformed NotAValue 0
bool at 0: "#outs t" and more ==> needs
bool at 0: "-" and more ==> needs
bool at 0: "#ou" and more ==> needs
"##;

// Two ints, of which the second is kept; at last a truth, a real, a real that is not kept, and an int.
const STEPS: &str = r##"
skipped int, int at 2: "#step 1\n1 #outs 5\n#step 2\n1 #outs 6\n#step 3\n1 #o" ==> whole 5 at 18; whole 6 at 36; short 12
skipped int, int at 2: "1 2 3" ==> whole 2 at 4; short 1
skipped int, int at 2: "1 2 3" and more ==> whole 2 at 4; needs
skipped int, int at 2: "1 -- 2\n3\n" ==> whole 3 at 9; short 0
skipped int, int at 2: "1 x" and more ==> needs
skipped int, int at 2: "1 x" ==> malformed NotAValue 2
skipped int, int at 2: "1 #outs" ==> short 7
skipped int, int at 2: "1 #o\n2 " ==> whole 2 at 7; short 0
skipped int, int at 2: "1 #outs#\n2 " ==> whole 2 at 11; short 0
skipped int, int at 2: "1000000000001 1 " ==> malformed OutOfRange 0
skipped int, int at 2: "1 #outs 2 #locs ? 7\n3 4 " ==> whole 2 at 10; whole 4 at 24; short 0
bool, real, skipped real, int at 1: "t 1.25\n#outs -.05 4" ==> whole t 13 4 at 19; short 0
"##;

// Streams as a controller writes them and traces that are played again.
const STREAMS: &str = r##"
int [-9;9] at 2: "-0\r\n\n-- #outs\n\r-3  " ==> whole 0 at 3; whole -3 at 18; short 1
int, bool at 2: "0\ttrue\r\n\t9\t0  +7    #xtrue " ==> whole 0 t at 7; whole 9 f at 13; short 14
int at 1: "  -0  \n 5\r\n+7\r \n -9\r\n ++1 \n " ==> whole 0 at 5; whole 5 at 10; whole 7 at 14; whole -9 at 20; malformed NotAValue 22
bool at 2: "t  \nt    -- c\n\nf \n \ntrue\r\n\n#outsx\nf  " ==> whole t at 2; whole t at 6; whole f at 17; whole t at 25; whole f at 36; short 1
skipped bool, bool at 0: "true \t#outsx\n\ttrue " ==> whole t at 19; short 0
skipped int, skipped real at 2: "0  \n--x  1e-999\r\n" ==> short 17
skipped int, int [-9;9] at 2: "0000000000000000" ==> short 16
skipped bool, skipped int, bool, int at 6: "\n0 \r#o\n-0  \n #outsx\n\r\nF\t007 \n true\r\n --\n\r\n-0\tf \n-0\n" ==> whole f 7 at 28; whole f 0 at 51; short 0
skipped bool at 2: "true \n 0\n \n .5\tT  tru" ==> whole at 5; whole at 9; malformed NotAValue 12
real [-20;20] at 1: ".5\r .5 \t#outs \n .5\r # x 1\n0e999\n .5  " ==> whole 5 at 3; whole 5 at 7; whole 5 at 19; whole 0 at 32; whole 5 at 36; short 1
int [-9;9] at 2: " \n # outs\n-3\r\n\n--\n\r-3 \r-1000000000001 " ==> whole -3 at 13; whole -3 at 22; malformed OutOfRange 23
skipped real, bool, bool, bool at 6: "-1.5e-1\r\nf\r  #outs   0\rf \n .5\r\nt\t\tt\r\n1\n0" ==> whole f f f at 25; whole t t t at 39; short 1
bool at 2: "\n#outs\n\r\nt\r\nt\tt\r\nf \n T" ==> whole t at 11; whole t at 14; whole t at 16; whole f at 19; whole t at 22; short 0
skipped int, int, bool, int [5;5] at 0: "  007  -3  \r\nf\r\n\t-- #outs\n000000000000000005 \n   0\r5\n  T\r\n9\r\n" ==> whole -3 f 5 at 45; malformed OutOfRange 58
real at 2: " +.25\t\t0  \n0.005 \n " ==> whole 25 at 6; whole 0 at 9; whole 1 at 17; short 2
skipped int, skipped bool at 2: "\n# x 1\n-0 T\n 9\rF\n-0\r\n\ntrue \n " ==> whole at 12; whole at 17; whole at 27; short 2
int, int [-9;9], real at 2: "000000000000000005\t\r+7 \t1.5 \r\n--x-9\r\n\r#outs# \n \n 9\t\r# outs\n1e-3\t" ==> whole 5 7 150 at 28; malformed NotAValue 59
real, bool at 2: "0.0049999 \n \tf\r\r#step 1\n0x1p3\t0\r" ==> whole 0 f at 15; malformed NotAValue 24
bool, real [-20;20], real [-20;20] at 1: "1 \n -1.5e-1\r\n\n000.500\nF  \n --5\n000.500\t 0\r\n" ==> whole t -2 5 at 22; whole f 5 0 at 42; short 1
skipped real, real at 2: "1e-999\r\t9\n1e-999\r\r\n#outs# \n+.25 " ==> whole 900 at 10; whole 25 at 32; short 0
real at 1: "0.0049999\r  #OUTS\n\t1e1 1e-999  +-1 \n 0.0049999  " ==> whole 0 at 10; whole 100 at 23; whole 0 at 30; malformed NotAValue 31
skipped bool, int at 1: "\r--5\nf\r\n0 \n  \n 1\r\n \n -9  false\n-9  t\r  -0\nfa" ==> whole 0 at 10; whole -9 at 24; whole -9 at 34; whole 0 at 42; malformed NotAValue 42
skipped bool, skipped real, bool at 6: "\t-- c\n  t \n1E+0\r\r\nfalse\n\r\nfalse\n2.5e000\r\rF \n 0\n 0.005   \n #outs  T\t" ==> whole f at 24; whole f at 43; whole t at 67; short 0
skipped int, int [5;5] at 2: "007   --x000000000000000005  " ==> short 29
skipped real, bool, int, int [-9;9] at 2: "0.005\r\n  #o\nF \n   # outs\n\n-9  5\r" ==> whole f -9 5 at 32; short 0
"##;

// Long streams for one truth, and for two.
const LONG: &str = r##"
bool at 0: 65535 of " " + "x" ==> malformed TooLong 0
bool at 0: 65535 of " " + "t " ==> malformed TooLong 0
bool at 0: 65534 of " " + "x " ==> malformed NotAValue 65534
bool at 0: 65534 of " " + "t " ==> whole t at 65536; short 0
bool at 0: 65534 of " " + "x" ==> malformed NotAValue 65534
bool at 0: 65534 of " " + "x" and more ==> needs
bool at 0: 65534 of " " + "t" ==> whole t at 65535; short 0
bool at 0: 65535 of " " ==> short 65535
bool at 0: 65535 of " " and more ==> needs
bool at 0: 65536 of " " ==> malformed TooLong 0
bool at 0: 70000 of " " + "t " ==> malformed TooLong 0
bool at 0: 1 of " " + "t   " ==> whole t at 3; short 2
bool at 0: 65531 of " " + "#x\nt " ==> whole t at 65536; short 0
bool at 0: 65532 of " " + "#x\nt " ==> malformed TooLong 0
bool at 0: 65528 of " " + "#outs t " ==> whole t at 65536; short 0
bool at 0: 65529 of " " + "#outs t " ==> malformed TooLong 0
bool at 0: 65530 of " " + "#outs" ==> short 65535
bool at 0: 65531 of " " + "#outs" ==> malformed TooLong 0
bool at 0: "# " + 65531 of " " + "\nt " ==> whole t at 65536; short 0
bool at 0: "# " + 65532 of " " + "\nt " ==> malformed TooLong 0
bool at 0: "-- " + 65532 of " " + "t" ==> malformed TooLong 0
bool at 0: "t " + 65534 of " " + "f " ==> whole t at 2; whole f at 65538; short 0
bool at 0: "t " + 65534 of " " + "x " ==> whole t at 2; malformed NotAValue 65536
bool at 0: "t " + 65535 of " " + "f " ==> whole t at 2; malformed TooLong 2
bool at 0: "t " + 65535 of " " + "x" ==> whole t at 2; malformed TooLong 2
bool at 0: "t " + 65536 of " " ==> whole t at 2; malformed TooLong 2
bool, bool at 0: 65530 of " " + "t   t " ==> whole t t at 65536; short 0
bool, bool at 0: 65531 of " " + "t   t " ==> malformed TooLong 0
bool, bool at 0: 65531 of " " + "t  ft " ==> malformed TooLong 0
"##;

// A stream with the slots of its replies.
#[derive(Drop)]
struct Stream {
    slots: Vec<Slot>,
    decimals: u32,
    bytes: Vec<u8>,
    // Whether more may come.
    is_open: bool,
    ghost few_decimals: { decimals ≤ most_decimals },
    ghost is_short: { length bytes.items ≤ 1_000_000 },
}

// The lengths of pieces that a stream is cut into, and those of a long one.
const LENGTHS: [usize; 7] = [1, 2, 3, 4, 5, 7, 11];

const LONG_LENGTHS: [usize; 5] = [1, 7, 4096, 65_535, 100_000];

/// Puts what is found in the stream of a row.
pub fn put_replies(found: &mut String, alloc: Global, given: &str) -> Result<(), Fail> {
    stream_of(alloc, given)?.put_in_any_pieces(found, alloc)
}

impl Stream {
    // Puts what is found, whatever the pieces are: those of each length, and for a stream that is not long two that are cut
    // at each place. What differs in some pieces is put after it.
    fn put_in_any_pieces(&self, found: &mut String, alloc: Global) -> Result<(), Fail> {
        let whole = self.bytes.len();
        let is_long = whole > 1000;
        self.put_in_pieces(found, alloc, whole, whole)?;
        let lengths: &[usize] = if is_long { &LONG_LENGTHS } else { &LENGTHS };
        for length in lengths {
            self.put_if_other(found, alloc, *length, *length)?;
        }
        let cuts = if is_long { 0 } else { whole };
        for cut in 0..cuts {
            self.put_if_other(found, alloc, cut, whole)?;
        }
        Ok(())
    }

    // Puts what is found in pieces, of which the first has so many bytes and each later one so many.
    fn put_in_pieces(
        &self,
        found: &mut String,
        alloc: Global,
        first_length: usize,
        piece_length: usize,
    ) -> Result<(), Fail> {
        let mut reader = Reader::make(alloc, self.slots.to_vec(alloc)?, self.decimals)?;
        if !put_fed(found, &mut reader, &self.bytes, first_length, piece_length)? {
            return Ok(());
        }
        if self.is_open {
            return Ok(write!(found, "{}needs", apart(found))?);
        }
        put_end(found, &mut reader, self.bytes.len())
    }

    // Puts that too, if it isn't what stands there.
    fn put_if_other(
        &self,
        found: &mut String,
        alloc: Global,
        first_length: usize,
        piece_length: usize,
    ) -> Result<(), Fail> {
        let mut other = String::new(alloc);
        self.put_in_pieces(&mut other, alloc, first_length, piece_length)?;
        if other != *found {
            write!(
                found,
                " but in pieces of {first_length} and {piece_length}: {other}"
            )?;
        }
        Ok(())
    }
}

// Feeds a stream in such pieces, puts what is found, and answers whether a reply may go on. What a whole reply leaves of its
// piece is fed again.
fn put_fed(
    found: &mut String,
    reader: &mut Reader,
    stream: &[u8],
    first_length: usize,
    piece_length: usize,
) -> Result<bool, Fail>
    requires begins { given (reading reader.old) ≡ 0 }
    requires stream { length stream.now ≤ 1_000_000 }
    ensures { result ≡ Ok true → given (reading reader.new) ≤ 1_000_000 }
{
    let mut place = 0;
    let mut end = first_length.min(stream.len());
    'pieces: for _ in 0..100_000 {
        match reader.feed(&stream[place..end]) {
            Fed::More => {
                place = end;
                end = place + piece_length.min(stream.len() - place);
                if end == place {
                    break;
                }
            }
            Fed::Whole(count) => {
                place += count;
                put_whole(found, reader.values(), place)?;
            }
            Fed::Malformed(fault, at) => {
                write!(found, "{}malformed {fault:?} {at}", apart(found))?;
                return Ok(false);
            }
        }
    }
    Ok(true)
}

// Puts what the end of a stream of so many bytes makes of the reply at hand, and of the next one if that is whole.
fn put_end(found: &mut String, reader: &mut Reader, place: usize) -> Result<(), Fail>
    requires { given (reading reader.old) ≤ 1_000_000 }
{
    let mut closing = reader.finish();
    if closing == Closing::Whole {
        put_whole(found, reader.values(), place)?;
        closing = reader.finish();
    }
    match closing {
        Closing::Whole => put_whole(found, reader.values(), place),
        Closing::Short(count) => Ok(write!(found, "{}short {count}", apart(found))?),
        Closing::Malformed(fault, at) => {
            Ok(write!(found, "{}malformed {fault:?} {at}", apart(found))?)
        }
    }
}

// Puts the values of a reply that is whole at a place.
fn put_whole(found: &mut String, values: &[Value], place: usize) -> Result<(), Fail> {
    write!(found, "{}whole", apart(found))?;
    for value in values {
        match value {
            Value::Bool(true) => found.push_str(" t")?,
            Value::Bool(false) => found.push_str(" f")?,
            Value::Num(raw) => write!(found, " {raw}")?,
        }
    }
    Ok(write!(found, " at {place}")?)
}

// What stands between a finding and those before it.
fn apart(found: &str) -> &'static str {
    if found.is_empty() { "" } else { "; " }
}

// The slots, decimals and bytes that a row gives.
fn stream_of(alloc: Global, given: &str) -> Result<Stream, Fail> {
    let (form, text) = halves(given, ": ")?;
    let (slots, decimals) = halves(form, " at ")?;
    let decimals = decimals.parse()?;
    let closed = text.strip_suffix(" and more");
    let bytes = bytes_of(alloc, closed.unwrap_or(text))?;
    // What a reader asks of its decimals and of its stream.
    if decimals > 6 || bytes.len() > 1_000_000 {
        return Err(Fail::new("0 to 6 decimals, and a million bytes at most"));
    }
    Ok(Stream {
        slots: slots_of(alloc, slots)?,
        decimals,
        bytes,
        is_open: closed.is_some(),
    })
}

// The slots of a reply.
fn slots_of(alloc: Global, text: &str) -> Result<Vec<Slot>, Fail> {
    let mut slots = Vec::new(alloc);
    for slot in text.split(", ") {
        slots.push(slot_of(slot)?)?;
    }
    Ok(slots)
}

// The slot that words name.
fn slot_of(text: &str) -> Result<Slot, Fail> {
    let kept = text.strip_prefix("skipped ");
    let (word, range) = match kept.unwrap_or(text).split_once(" [") {
        Some((word, ends)) => (word, Some(interval_of(ends)?)),
        None => (kept.unwrap_or(text), None),
    };
    Ok(Slot {
        kind: kind_of(word)?,
        range,
        keep: kept.is_none(),
    })
}

// The interval between ends, as `-9;9]`.
fn interval_of(ends: &str) -> Result<Interval, Fail> {
    let (low, high) = halves(ends, ";")?;
    let high = high.strip_suffix(']').ok_or("a bracket")?;
    Ok(Interval {
        low: low.parse()?,
        high: high.parse()?,
    })
}

#[test]
fn replies_are_found_in_any_pieces(rt: HostRuntime) -> Result<(), Fail> {
    check(&rt, rt.alloc(), &Subject::Replies, TRUTHS, 13)?;
    check(&rt, rt.alloc(), &Subject::Replies, INTS, 29)?;
    check(&rt, rt.alloc(), &Subject::Replies, REALS, 60)?;
    check(&rt, rt.alloc(), &Subject::Replies, WORDS, 48)?;
    check(&rt, rt.alloc(), &Subject::Replies, STEPS, 12)?;
    check(&rt, rt.alloc(), &Subject::Replies, STREAMS, 25)
}

#[test]
fn a_reply_takes_so_many_bytes(rt: HostRuntime) -> Result<(), Fail> {
    check(&rt, rt.alloc(), &Subject::Replies, LONG, 29)
}

#[test]
fn a_reply_of_no_slots_is_whole_at_once(rt: HostRuntime) -> Result<(), Fail> {
    let alloc = rt.alloc();
    let mut open = Reader::make(alloc, Vec::new(alloc), 2)?;
    assert!(rt; matches!(open.feed(b"x"), Fed::Whole(0)));
    let mut ended = Reader::make(alloc, Vec::new(alloc), 2)?;
    assert!(rt; matches!(ended.finish(), Closing::Whole));
    Ok(())
}
