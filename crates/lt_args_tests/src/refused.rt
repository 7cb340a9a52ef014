//! Words that ask for nothing.

use crate::rows::check;
use std::test::Fail;

const REFUSED: &str = "
## a mode and a file are wanted
==> Usage(Words)
walk ==> Usage(Words)
print ==> Usage(Words)
run -l 5 ==> Usage(Words)
-l 5 run ==> Usage(Words)
run -- ==> Usage(Words)
-- ==> Usage(Words)
run f g ==> Usage(Words)
run -- f -l 5 ==> Usage(Words)
print f --locals yes ==> Usage(Words)

## help is refused wherever it is asked for
--help ==> Usage(Words)
-h ==> Usage(Words)
run --help ==> Usage(Words)
run f --help ==> Usage(Words)
print f -h ==> Usage(Words)
-h run f ==> Usage(Words)
walk f --help ==> Usage(Words)
run f --sut c --replay t -h ==> Usage(Words)
run f -lh ==> Usage(Words)
--version ==> Usage(Words)
-V ==> Usage(Words)
run f --version ==> Usage(Words)

## unknown options are refused
run f --drawn 2 ==> Usage(Words)
run f --zz=5 ==> Usage(Words)
run f -x ==> Usage(Words)
run f --see 5 ==> Usage(Words)
run f --seed5 ==> Usage(Words)
run f --limit 5 ==> Usage(Words)
run f -seed 5 ==> Usage(Words)
run f --LOCALS ==> Usage(Words)

## an option is given once
run f -l 5 -l 5 ==> Usage(Words)
run f -l5 -l=5 ==> Usage(Words)
-l 5 run f -l 5 ==> Usage(Words)
run f --seed 5 --seed=5 ==> Usage(Words)
run f --precision 2 -l 5 --precision 2 ==> Usage(Words)
run f --budget 5 --budget 5 ==> Usage(Words)
run f --node n --node m ==> Usage(Words)
run f --sut c --sut c ==> Usage(Words)
run f --oracle o --replay t --oracle o ==> Usage(Words)
run f --locals --locals ==> Usage(Words)
run f --draw 1 --draw 2 ==> Usage(Words)
campaign f --count 2 --count 2 ==> Usage(Words)
--count=2 campaign f --count=3 ==> Usage(Words)

## an option has its word and a flag has none
run f -l ==> Usage(Words)
run f --seed ==> Usage(Words)
run f --node ==> Usage(Words)
run f --sut ==> Usage(Words)
run f --replay -l 5 ==> Usage(Words)
run f --oracle --locals ==> Usage(Words)
run f --node -x ==> Usage(Words)
run f --sut -- c ==> Usage(Words)
run f --draw ==> Usage(Words)
campaign f --count ==> Usage(Words)
campaign f --count --locals ==> Usage(Words)
run f --locals=yes ==> Usage(Words)
run f --locals= ==> Usage(Words)

## numbers lie within their bounds
run f -l 1000001 ==> Usage(Words)
run f -l= ==> Usage(Words)
run f -l -1 ==> Usage(Words)
run f -l=-0 ==> Usage(Words)
run f -l 1x ==> Usage(Words)
run f --seed 18446744073709551616 ==> Usage(Words)
run f --seed=184467440737095516150 ==> Usage(Words)
run f --seed=-1 ==> Usage(Words)
run f --seed 0x5 ==> Usage(Words)
run f --seed=++5 ==> Usage(Words)
run f --seed=+ ==> Usage(Words)
run f --precision 7 ==> Usage(Words)
run f --precision +7 ==> Usage(Words)
run f --precision 2.0 ==> Usage(Words)
run f --precision= ==> Usage(Words)
print f --budget 0 ==> Usage(Words)
run f --budget=00 ==> Usage(Words)
print f --budget 1000000000001 ==> Usage(Words)
run f --draw 0 ==> Usage(Words)
run f --draw 4 ==> Usage(Words)
run f --draw=up ==> Usage(Words)
stress 6 --draw 4 ==> Usage(Words)
campaign f --count 0 ==> Usage(Words)
campaign f --count=00 ==> Usage(Words)
campaign f --count 65 ==> Usage(Words)
campaign f --count=+65 ==> Usage(Words)
campaign f --count=-1 ==> Usage(Words)
campaign f --count two ==> Usage(Words)
campaign f --count 2.0 ==> Usage(Words)
campaign f --count= ==> Usage(Words)
campaign f --count 18446744073709551617 ==> Usage(Words)
run f --count 0 ==> Usage(Words)
print f --count 65 ==> Usage(Words)
stress 6 --count 0 ==> Usage(Words)

## an empty word is no number
run f -l '' ==> Usage(Words)

## there is no other mode
walk f ==> Usage(Mode)
Run f ==> Usage(Mode)
prints f ==> Usage(Mode)
Campaign f ==> Usage(Mode)
campaigns f --count 2 ==> Usage(Mode)
f run ==> Usage(Mode)
-l 5 walk --node n f ==> Usage(Mode)
walk f --sut c --replay t ==> Usage(Mode)

## a large run has a number of digits alone
stress x ==> Usage(Number)
stress 1000000 ==> Usage(Number)
stress +6 ==> Usage(Number)
stress 6x ==> Usage(Number)
stress 0x6 ==> Usage(Number)
stress 6.0 ==> Usage(Number)
stress 99999999999999999999999 ==> Usage(Number)
stress -- -6 ==> Usage(Number)
stress +6 --sut c --replay t ==> Usage(Number)
stress - ==> Usage(Number)

## a run has one giver of replies
run f --sut c --replay t ==> Usage(Both)
--replay=t --sut=c run f ==> Usage(Both)
run --replay t f --locals --sut c ==> Usage(Both)

## so has each of a campaign
campaign f --sut c --replay t ==> Usage(Both)
--replay=t --count 2 --sut=c campaign f ==> Usage(Both)
campaign f --sut c --replay t --count 0 ==> Usage(Words)
campaign --sut c --replay t ==> Usage(Words)

## a check has a trace
check f ==> Usage(Trace)
check f --sut c --oracle o ==> Usage(Trace)
-l 5 check --locals f ==> Usage(Trace)
check --replay t ==> Usage(Words)
check f --replay ==> Usage(Words)
check f --help ==> Usage(Words)
Check f --replay t ==> Usage(Mode)
";

#[test]
fn wrong_words_are_refused_by_their_kind(rt: HostRuntime) -> Result<(), Fail> {
    check(&rt, REFUSED, 123)
}
