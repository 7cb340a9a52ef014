//! What words ask for.

use crate::rows::check;
use std::test::Fail;

const ASKED: &str = r#"
## what is not given has a default
run f ==> Run f; (100, 0, 2, 10000000); (None, None, None, None); false; Up; 1
print f ==> Print f; (100, 0, 2, 10000000); (None, None, None, None); false; Up; 1
print - ==> Print -; (100, 0, 2, 10000000); (None, None, None, None); false; Up; 1
run '' ==> Run ; (100, 0, 2, 10000000); (None, None, None, None); false; Up; 1

## options stand anywhere
run f -l 12 --precision 3 --sut c --locals ==> Run f; (12, 0, 3, 10000000); (None, Some("c"), None, None); true; Up; 1
-l 12 --precision 3 --sut c --locals run f ==> Run f; (12, 0, 3, 10000000); (None, Some("c"), None, None); true; Up; 1
--locals run -l 12 --sut c f --precision 3 ==> Run f; (12, 0, 3, 10000000); (None, Some("c"), None, None); true; Up; 1
-l12 --locals --sut=c --precision=3 -- run f ==> Run f; (12, 0, 3, 10000000); (None, Some("c"), None, None); true; Up; 1
run -l=12 --sut=c --precision=3 --locals f -- ==> Run f; (12, 0, 3, 10000000); (None, Some("c"), None, None); true; Up; 1

## numbers may have a plus and zeros
run f -l +5 --seed 007 --precision +02 --budget 0001 ==> Run f; (5, 7, 2, 1); (None, None, None, None); false; Up; 1
run f -l+5 --seed=+007 --precision=06 --budget=+1000000000000 ==> Run f; (5, 7, 6, 1000000000000); (None, None, None, None); false; Up; 1
run f -l 1000000 --seed 18446744073709551615 --precision 0 ==> Run f; (1000000, 18446744073709551615, 0, 10000000); (None, None, None, None); false; Up; 1
run f -l 0 --seed=+18446744073709551615 ==> Run f; (0, 18446744073709551615, 2, 10000000); (None, None, None, None); false; Up; 1

## a rule of drawing has a number
run f --draw 1 ==> Run f; (100, 0, 2, 10000000); (None, None, None, None); false; Up; 1
run f --draw 2 ==> Run f; (100, 0, 2, 10000000); (None, None, None, None); false; Directed; 1
run f --draw 3 ==> Run f; (100, 0, 2, 10000000); (None, None, None, None); false; Inside; 1
--draw=+02 run f --seed 7 ==> Run f; (100, 7, 2, 10000000); (None, None, None, None); false; Directed; 1
print f --draw 2 --locals ==> Print f; (100, 0, 2, 10000000); (None, None, None, None); true; Directed; 1
--locals --draw=003 print f ==> Print f; (100, 0, 2, 10000000); (None, None, None, None); true; Inside; 1

## a large run is asked for by its number
stress 6 ==> Stress(6) 6; (100, 0, 2, 10000000); (None, None, None, None); false; Up; 1
stress 007 ==> Stress(7) 007; (100, 0, 2, 10000000); (None, None, None, None); false; Up; 1
stress 0 ==> Stress(0) 0; (100, 0, 2, 10000000); (None, None, None, None); false; Up; 1
--sut c stress --replay=t 999999 ==> Stress(999999) 999999; (100, 0, 2, 10000000); (None, Some("c"), None, None); false; Up; 1

## a campaign has a count
campaign f ==> Campaign f; (100, 0, 2, 10000000); (None, None, None, None); false; Up; 1
campaign f --count 1 ==> Campaign f; (100, 0, 2, 10000000); (None, None, None, None); false; Up; 1
campaign f --count 64 ==> Campaign f; (100, 0, 2, 10000000); (None, None, None, None); false; Up; 64
--count=+007 campaign f -l5 --seed 7 --locals ==> Campaign f; (5, 7, 2, 10000000); (None, None, None, None); true; Up; 7
campaign f --sut c --oracle o --count=2 --node n ==> Campaign f; (100, 0, 2, 10000000); (Some("n"), Some("c"), Some("o"), None); false; Up; 2
--replay t --count 3 campaign --precision 0 f --draw 3 --budget 1 ==> Campaign f; (100, 0, 0, 1); (None, None, None, Some("t")); false; Inside; 3

## another mode has it too
run f --count 5 ==> Run f; (100, 0, 2, 10000000); (None, None, None, None); false; Up; 5
print f --count 64 ==> Print f; (100, 0, 2, 10000000); (None, None, None, None); false; Up; 64
check f --count=5 --replay t ==> Check f; (100, 0, 2, 10000000); (None, None, None, Some("t")); false; Up; 5
--count 05 stress 6 ==> Stress(6) 6; (100, 0, 2, 10000000); (None, None, None, None); false; Up; 5

## a check has its trace, and no controller
check f --replay t ==> Check f; (100, 0, 2, 10000000); (None, None, None, Some("t")); false; Up; 1
check f --sut c --replay=t --oracle o --locals -l 5 --seed 7 --draw 3 ==> Check f; (5, 7, 2, 10000000); (None, None, Some("o"), Some("t")); true; Inside; 1
--replay= --budget 1 check --node n --precision 0 f ==> Check f; (100, 0, 0, 1); (Some("n"), None, None, Some("")); false; Up; 1

## words are taken as they stand
run f --node n --oracle 'o -x 5' --sut '' ==> Run f; (100, 0, 2, 10000000); (Some("n"), Some(""), Some("o -x 5"), None); false; Up; 1
run f --node=-x --sut=--locals --oracle= ==> Run f; (100, 0, 2, 10000000); (Some("-x"), Some("--locals"), Some(""), None); false; Up; 1
run --replay=a=b -- -l ==> Run -l; (100, 0, 2, 10000000); (None, None, None, Some("a=b")); false; Up; 1
print f --sut c --replay t --locals ==> Print f; (100, 0, 2, 10000000); (None, Some("c"), None, None); true; Up; 1
"#;

#[test]
fn words_ask_for_what_they_say(rt: HostRuntime) -> Result<(), Fail> {
    check(&rt, ASKED, 40)
}
