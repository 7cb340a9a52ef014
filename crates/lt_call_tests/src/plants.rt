//! Runs against plants.

use crate::rows::check_rows;
use std::test::Fail;

#[test]
fn plants_are_tested(rt: HostRuntime) -> Result<(), Fail> {
    check_rows(
        &rt,
        "beside plants",
        3,
        r#"
## a gate is tested

$ run f --sut gate
f is node n(open: bool) returns (near: bool) = near fby near fby not near fby near
> #seed 0\n#inputs "near":bool\n#outputs "open":bool
> #step 1\nt #outs f\n#step 2\nt #outs t\n#step 3\nf #outs f\n#step 4\nt #outs f
> #end normal 4
asks gate

## a plant that has no reply ends the run
f is node n(y: bool) returns (x: int [0;3]) = loop x = 1

$ run f --sut gate
> #seed 0\n#inputs "x":int\n#outputs "y":bool\n#end device controller 1
= 9 lurette: device controller 1
asks gate

$ run f --sut plant
= 9 lurette: device controller 0
asks plant
"#,
    )
}

// The text of `examples/thermostat.lut`, and its trace beside the thermostat, as `scripts/apart.py`
// works it out from the rules. A narrow band of temperatures does, and its least one nearly always
// comes first.
const ROOM: &str = r#"
beside plants
f is exception Jam
f is let within (x, lo, hi: real): bool =
f is   lo <= x and x <= hi
f is let warm (t, g: real ref): bool =
f is   within(t, pre t + g, pre t + g + 0.20)
f is let cool (t, g: real ref): bool =
f is   within(t, pre t + g - 0.30, pre t + g)
f is node room (heat: bool)
f is returns (temp: real [-50.0;80.0] = 18.0; door: bool) =
f is   exist gust: real [-0.10;0.10] in
f is   exist sun: real [0.00;0.05] = 0.00 in
f is   assert within(sun, pre sun - 0.01, pre sun + 0.01) in
f is   assert if heat then warm(temp, gust) else cool(temp, sun) in
f is   {
f is     &> loop {
f is          |4: loop [3,10] not door
f is          |1: loop [1,4] door
f is        }
f is     &> catch Jam in
f is          loop { |99: true |1: raise Jam }
f is        do loop temp <= 80.0
f is   }
> #seed 0\n#inputs "temp":real "door":bool\n#outputs "heat":bool
> #step 1\n17.70 f #outs t\n#step 2\n17.60 f #outs t\n#step 3\n17.50 f #outs t
> #step 4\n17.40 f #outs t\n#step 5\n17.30 f #outs t\n#step 6\n17.20 f #outs t
> #step 7\n17.10 f #outs t\n#step 8\n17.00 f #outs t\n#step 9\n16.90 f #outs t
> #step 10\n16.80 f #outs t\n#step 11\n16.70 f #outs t\n#step 12\n16.60 f #outs t
> #step 13\n16.54 f #outs t\n#step 14\n16.44 f #outs t\n#step 15\n16.34 f #outs t
> #step 16\n16.24 f #outs t\n#step 17\n16.14 f #outs t\n#step 18\n16.04 f #outs t
> #step 19\n15.94 f #outs t\n#step 20\n15.84 f #outs t\n#step 21\n15.74 f #outs t
> #step 22\n15.64 f #outs t\n#step 23\n15.54 f #outs t\n#step 24\n15.44 f #outs t
> #step 25\n15.34 f #outs t\n#step 26\n15.24 f #outs t\n#step 27\n15.14 f #outs t
> #step 28\n15.04 f #outs t\n#step 29\n14.94 f #outs t\n#step 30\n14.84 f #outs t
> #step 31\n14.74 f #outs t\n#step 32\n14.64 f #outs t\n#step 33\n14.54 f #outs t
> #step 34\n14.44 f #outs t\n#step 35\n14.34 f #outs t\n#step 36\n14.24 f #outs t
> #step 37\n14.14 f #outs t\n#step 38\n14.04 f #outs t\n#step 39\n13.94 f #outs t
> #step 40\n13.84 f #outs t\n#step 41\n13.74 f #outs t\n#step 42\n13.64 f #outs t
> #step 43\n13.54 f #outs t\n#step 44\n13.44 f #outs t\n#step 45\n13.34 f #outs t
> #step 46\n13.24 f #outs t\n#step 47\n13.14 f #outs t\n#step 48\n13.04 f #outs t
> #step 49\n12.94 f #outs t\n#step 50\n12.84 f #outs t\n#step 51\n12.74 f #outs t
> #step 52\n12.64 f #outs t\n#step 53\n12.54 f #outs t\n#step 54\n12.44 f #outs t
> #step 55\n12.34 f #outs t\n#step 56\n12.24 f #outs t\n#step 57\n12.14 f #outs t
> #step 58\n12.04 f #outs t\n#step 59\n11.94 f #outs t\n#step 60\n11.84 f #outs t
> #step 61\n11.74 f #outs t\n#step 62\n11.64 f #outs t\n#step 63\n11.54 f #outs t
> #step 64\n11.44 f #outs t\n#step 65\n11.34 f #outs t\n#step 66\n11.24 f #outs t
> #step 67\n11.14 f #outs t\n#step 68\n11.04 f #outs t\n#step 69\n10.94 f #outs t
> #step 70\n10.84 f #outs t\n#step 71\n10.74 f #outs t\n#step 72\n10.64 f #outs t
> #step 73\n10.54 f #outs t\n#step 74\n10.44 f #outs t\n#step 75\n10.34 f #outs t
> #step 76\n10.24 f #outs t\n#step 77\n10.14 t #outs t\n#step 78\n10.04 t #outs t
> #step 79\n9.94 t #outs t\n#step 80\n9.84 t #outs t\n#step 81\n9.74 f #outs t
> #step 82\n9.64 f #outs t\n#step 83\n9.54 f #outs t\n#step 84\n9.44 f #outs t
> #step 85\n9.34 f #outs t\n#step 86\n9.24 f #outs t\n#step 87\n9.14 f #outs t
> #step 88\n9.04 f #outs t\n#step 89\n8.94 f #outs t\n#step 90\n8.84 f #outs t
> #step 91\n8.74 f #outs t\n#step 92\n8.64 f #outs t\n#step 93\n8.54 f #outs t
> #step 94\n8.44 f #outs t\n#step 95\n8.34 f #outs t\n#step 96\n8.24 f #outs t
> #step 97\n8.14 f #outs t\n#step 98\n8.04 f #outs t\n#step 99\n7.94 f #outs t
> #step 100\n7.84 f #outs t\n#step 101\n7.74 f #outs t\n#step 102\n7.64 f #outs t
> #step 103\n7.54 f #outs t\n#step 104\n7.44 f #outs t\n#step 105\n7.34 f #outs t
> #step 106\n7.24 f #outs t\n#step 107\n7.14 f #outs t\n#step 108\n7.04 f #outs t
> #step 109\n6.94 f #outs t\n#step 110\n6.84 f #outs t\n#step 111\n6.74 f #outs t
> #step 112\n6.64 f #outs t\n#step 113\n6.54 f #outs t\n#step 114\n6.44 f #outs t
> #step 115\n6.34 f #outs t\n#step 116\n6.24 f #outs t\n#step 117\n6.14 f #outs t
> #step 118\n6.04 f #outs t\n#step 119\n5.94 f #outs t\n#step 120\n5.84 f #outs t
> #step 121\n5.74 f #outs t\n#step 122\n5.64 f #outs t\n#step 123\n5.54 f #outs t
> #step 124\n5.44 f #outs t\n#step 125\n5.34 f #outs t\n#step 126\n5.24 f #outs t
> #step 127\n5.14 f #outs t\n#step 128\n5.04 f #outs t\n#step 129\n4.94 f #outs t
> #step 130\n4.84 f #outs t\n#step 131\n4.74 f #outs t\n#step 132\n4.64 f #outs t
> #step 133\n4.54 f #outs t\n#step 134\n4.44 f #outs t\n#step 135\n4.34 f #outs t
> #step 136\n4.24 t #outs t\n#step 137\n4.14 t #outs t\n#step 138\n4.04 t #outs t
> #step 139\n3.94 t #outs t\n#step 140\n3.84 t #outs t\n#step 141\n3.74 t #outs t
> #step 142\n3.64 t #outs t\n#step 143\n3.54 t #outs t\n#step 144\n3.44 t #outs t
> #step 145\n3.34 f #outs t\n#step 146\n3.24 f #outs t\n#step 147\n3.14 f #outs t
> #step 148\n3.04 f #outs t\n#step 149\n2.94 f #outs t\n#step 150\n2.84 f #outs t
> #step 151\n2.74 f #outs t\n#step 152\n2.64 f #outs t\n#step 153\n2.54 f #outs t
> #step 154\n2.44 f #outs t\n#step 155\n2.34 f #outs t\n#step 156\n2.24 f #outs t
> #step 157\n2.14 f #outs t\n#step 158\n2.04 f #outs t\n#step 159\n1.94 f #outs t
> #step 160\n1.84 t #outs t\n#step 161\n1.74 t #outs t\n#step 162\n1.64 t #outs t
> #step 163\n1.54 f #outs t\n#step 164\n1.44 f #outs t\n#step 165\n1.34 f #outs t
> #step 166\n1.24 f #outs t\n#step 167\n1.14 f #outs t\n#step 168\n1.04 f #outs t
> #step 169\n0.94 f #outs t\n#step 170\n0.84 f #outs t\n#step 171\n0.74 f #outs t
> #step 172\n0.64 f #outs t\n#step 173\n0.54 f #outs t\n#step 174\n0.44 f #outs t
> #step 175\n0.34 f #outs t\n#step 176\n0.24 f #outs t\n#step 177\n0.14 f #outs t
> #step 178\n0.04 f #outs t\n#step 179\n-0.06 f #outs t\n#step 180\n-0.16 f #outs t
> #step 181\n-0.26 f #outs t\n#step 182\n-0.36 f #outs t\n#step 183\n-0.46 f #outs t
> #step 184\n-0.56 t #outs t\n#step 185\n-0.66 t #outs t\n#step 186\n-0.76 t #outs t
> #step 187\n-0.86 t #outs t\n#step 188\n-0.96 f #outs t\n#step 189\n-1.06 f #outs t
> #step 190\n-1.16 f #outs t\n#step 191\n-1.26 f #outs t\n#step 192\n-1.36 f #outs t
> #step 193\n-1.46 f #outs t\n#step 194\n-1.56 f #outs t\n#step 195\n-1.66 f #outs t
> #step 196\n-1.76 f #outs t\n#step 197\n-1.86 f #outs t\n#step 198\n-1.96 f #outs t
> #step 199\n-2.06 f #outs t\n#step 200\n-2.16 f #outs t
> #end limit 200
"#;

#[test]
fn a_thermostat_is_tested_for_200_steps(rt: HostRuntime) -> Result<(), Fail> {
    check_rows(
        &rt,
        ROOM,
        3,
        "
$ run f --sut thermostat -l 200
asks thermostat

-- Another program finds nothing wrong.
$ run f --sut thermostat --oracle safe -l 200
asks thermostat safe

-- The trace is played again.
$ run f --replay t -l 200
t is its trace
files 2
",
    )
}

// The text of `examples/drafty.lut`, and its trace beside the thermostat, as `scripts/apart.py` works
// it out. The heater goes on and off.
const DRAFTY: &str = r#"
beside plants
f is node drafty(heat: bool) returns (temp: real [0.0; 40.0] = 20.0; door: bool) =
f is     {
f is         &> loop {
f is             | 3: temp = pre temp + (if heat then 0.6 else -0.4)
f is             | 1: temp = pre temp + (if heat then 0.2 else -1.0)
f is         }
f is         &> loop { | 6: loop [3, 10] not door | 1: loop [1, 3] door }
f is     }
> #seed 0\n#inputs "temp":real "door":bool\n#outputs "heat":bool
> #step 1\n19.60 f #outs f\n#step 2\n18.60 f #outs t\n#step 3\n19.20 f #outs t
> #step 4\n19.80 f #outs t\n#step 5\n20.40 f #outs t\n#step 6\n20.60 f #outs t
> #step 7\n21.20 t #outs f\n#step 8\n20.80 t #outs f\n#step 9\n20.40 f #outs f
> #step 10\n19.40 f #outs f\n#step 11\n19.00 f #outs f\n#step 12\n18.00 f #outs t
> #step 13\n18.60 f #outs t\n#step 14\n19.20 f #outs t\n#step 15\n19.80 f #outs t
> #step 16\n20.00 f #outs t\n#step 17\n20.60 f #outs t\n#step 18\n20.80 f #outs t
> #step 19\n21.40 f #outs f\n#step 20\n21.00 f #outs f\n#step 21\n20.60 f #outs f
> #step 22\n20.20 f #outs f\n#step 23\n19.20 f #outs f\n#step 24\n18.80 f #outs t
> #step 25\n19.40 f #outs t\n#step 26\n20.00 f #outs t\n#step 27\n20.20 f #outs t
> #step 28\n20.80 f #outs t\n#step 29\n21.00 f #outs t\n#step 30\n21.20 f #outs f
> #step 31\n20.80 f #outs f\n#step 32\n20.40 f #outs f\n#step 33\n20.00 f #outs f
> #step 34\n19.60 f #outs f\n#step 35\n19.20 f #outs f\n#step 36\n18.80 f #outs t
> #step 37\n19.00 f #outs t\n#step 38\n19.60 f #outs t\n#step 39\n19.80 f #outs t
> #step 40\n20.00 f #outs t\n#step 41\n20.60 f #outs t\n#step 42\n21.20 f #outs f
> #step 43\n20.80 f #outs f\n#step 44\n20.40 f #outs f\n#step 45\n20.00 f #outs f
> #step 46\n19.60 f #outs f\n#step 47\n19.20 f #outs f\n#step 48\n18.20 f #outs t
> #step 49\n18.80 f #outs t\n#step 50\n19.00 f #outs t\n#step 51\n19.20 f #outs t
> #step 52\n19.80 f #outs t\n#step 53\n20.00 f #outs t\n#step 54\n20.60 f #outs t
> #step 55\n20.80 f #outs t\n#step 56\n21.00 f #outs t\n#step 57\n21.60 f #outs f
> #step 58\n20.60 f #outs f\n#step 59\n20.20 t #outs f\n#step 60\n19.20 t #outs f
> #step 61\n18.20 t #outs t\n#step 62\n18.80 f #outs t\n#step 63\n19.40 f #outs t
> #step 64\n20.00 f #outs t\n#step 65\n20.60 f #outs t\n#step 66\n20.80 f #outs t
> #step 67\n21.40 f #outs f\n#step 68\n21.00 f #outs f\n#step 69\n20.60 f #outs f
> #step 70\n20.20 f #outs f\n#step 71\n19.20 f #outs f\n#step 72\n18.80 f #outs t
> #step 73\n19.40 f #outs t\n#step 74\n20.00 f #outs t\n#step 75\n20.60 f #outs t
> #step 76\n21.20 f #outs f\n#step 77\n20.80 f #outs f\n#step 78\n20.40 f #outs f
> #step 79\n20.00 f #outs f\n#step 80\n19.00 f #outs f\n#step 81\n18.60 f #outs t
> #step 82\n19.20 f #outs t\n#step 83\n19.80 f #outs t\n#step 84\n20.00 f #outs t
> #step 85\n20.60 f #outs t\n#step 86\n20.80 f #outs t\n#step 87\n21.00 f #outs t
> #step 88\n21.60 f #outs f\n#step 89\n21.20 f #outs f\n#step 90\n20.80 f #outs f
> #step 91\n20.40 f #outs f\n#step 92\n20.00 t #outs f\n#step 93\n19.00 t #outs f
> #step 94\n18.60 t #outs t\n#step 95\n19.20 t #outs t\n#step 96\n19.40 t #outs t
> #step 97\n20.00 t #outs t\n#step 98\n20.20 t #outs t\n#step 99\n20.80 f #outs t
> #step 100\n21.40 f #outs f
> #end limit 100
"#;

#[test]
fn a_drafty_room_is_explored(rt: HostRuntime) -> Result<(), Fail> {
    check_rows(
        &rt,
        DRAFTY,
        2,
        "
$ run f --sut thermostat
asks thermostat

-- The thermostat never heats over 30 degrees.
$ run f --sut thermostat --oracle safe
asks thermostat safe
",
    )
}
