//! Bounds on differences, and the least values that meet them, with ample memory, which no clause can promise.

ghost use Rattle.std.specs.Prelude.{◌≡◌, ◌≢◌, ◌<◌, IfOk, true};
ghost use Rattle.lt_diff.specs.Bounds.{HasLeasts, StaysStated, no_bound};
ghost use Rattle.lt_diff.specs.Closing.{AreStated, IsClosed};
ghost use Rattle.lt_diff.specs.MatrixView.{matrix_cell, matrix_size};

use crate::rows::{Told, check, halves};
use lt_diff::Matrix;
use std::alloc::Global;
use std::test::Fail;

// Each row has bounds on the differences of x, y and z, which are from 0 to 9 each, and of the constant 0; and the least values
// of the three, or `none`. At a `;` the bounds so far are closed before further ones are stated.
const LEASTS: &str = "\
x - y <= -1 , y - z <= -1 , z - x <= 1 ==> none
x - y <= -1 , y - z <= -1 , z - x <= 2 ==> 0 1 2
y - y <= -1 ==> none
y - y <= 1 ==> 0 0 0
0 - x <= -9 ; x - 0 <= 9 ==> 9 0 0
0 - x <= -9 ; x - 0 <= 8 ==> none
x - y <= -1 , y - z <= -1 ; z - x <= 2 ==> 0 1 2
x - y <= -1 , y - z <= -1 ; z - x <= 1 ==> none
z - x <= -4 , x - z <= 3 ==> none
0 - y <= 3 , y - 0 <= -1 , y - 0 <= 2 ==> none
z - x <= 0 , y - x <= -2 , y - z <= 1 , x - z <= -1 ==> none
0 - y <= -4 , x - 0 <= -1 , y - z <= 1 , x - z <= 3 , z - x <= -3 ==> none
x - 0 <= 2 , x - 0 <= -4 ; z - x <= -3 , 0 - z <= 2 ==> none
z - y <= 1 , z - x <= -2 , z - 0 <= 2 ==> 2 0 0
z - y <= -3 ; 0 - x <= -3 ==> 3 3 0
z - x <= -1 , y - z <= 1 , 0 - y <= -4 , x - z <= 2 ; z - y <= -1 ==> 4 4 3
y - z <= -2 , x - 0 <= 0 , 0 - y <= -4 , x - y <= -3 ==> 0 4 6
z - y <= -4 , z - 0 <= 1 , x - y <= 1 ==> 0 4 0
0 - y <= 1 , z - x <= -2 ==> 2 0 0
y - x <= 1 ; z - x <= -1 , 0 - x <= -2 ==> 2 0 0
z - x <= 2 ; 0 - y <= -4 , x - z <= -1 ==> 0 4 1
y - z <= -3 , y - z <= 3 , x - y <= 0 , 0 - y <= -2 ==> 0 2 5
y - x <= 3 , x - y <= -2 , 0 - x <= -2 , z - y <= -2 ; y - z <= 3 ==> 2 4 1
z - y <= -3 , 0 - z <= -4 ==> 0 7 4
z - x <= -1 , z - 0 <= 3 ==> 1 0 0
0 - y <= -1 ; 0 - z <= -2 , z - x <= 1 , 0 - x <= 1 ==> 1 1 2
0 - z <= -1 , 0 - y <= 3 ; y - x <= 1 , z - y <= 1 ==> 0 0 1
x - 0 <= 3 ; y - x <= -3 ==> 3 0 0
z - x <= -1 , z - y <= -1 ; z - x <= -1 ==> 1 1 0
0 - y <= 0 , y - x <= 1 ; y - x <= -3 ==> 3 0 0";

/// Puts the least values that meet bounds, or that there are none.
pub(crate) fn put_least(found: &mut String, alloc: Global, given: &str) -> Result<(), Fail> {
    let mut matrix = Matrix::make(alloc, 4)?;
    put_ranges(&mut matrix);
    let (first, further) = halves(given, " ; ");
    if !put_closed(&mut matrix, first)? {
        return Ok(found.push_str(" none")?);
    }
    if further.is_empty() {
        return put_point(found, &matrix);
    }
    if !put_closed(&mut matrix, further)? {
        return Ok(found.push_str(" none")?);
    }
    put_point(found, &matrix)
}

// States bounds and closes them, and answers whether there are values that meet them.
fn put_closed(matrix: &mut Matrix, bounds: &str) -> Result<bool, Fail>
    requires size { matrix_size matrix.old ≡ 4 }
    requires stated { AreStated 4 (matrix_cell matrix.old) }
    requires leasts { HasLeasts 4 (matrix_cell matrix.old) }
    ensures size { matrix_size matrix.new ≡ 4 }
    ensures stated { IfOk result (λ met. met ≡ true → AreStated 4 (matrix_cell matrix.new)) }
    ensures closed { IfOk result (λ met. met ≡ true → IsClosed 4 (matrix_cell matrix.new)) }
    ensures leasts { IfOk result (λ met. met ≡ true → HasLeasts 4 (matrix_cell matrix.new)) }
{
    put_bounds(matrix, bounds)?;
    Ok(matrix.close())
}

// States that each variable is from 0 to 9.
fn put_ranges(matrix: &mut Matrix)
    requires size { matrix_size matrix.old ≡ 4 }
    requires stated { AreStated 4 (matrix_cell matrix.old) }
    ensures size { matrix_size matrix.new ≡ 4 }
    ensures stated { AreStated 4 (matrix_cell matrix.new) }
    ensures leasts { HasLeasts 4 (matrix_cell matrix.new) }
{
    for variable in 0..4 {
        put_range(matrix, variable);
    }
}

// States that a variable is from 0 to 9. No bound is lost.
fn put_range(matrix: &mut Matrix, variable: usize)
    requires size { matrix_size matrix.old ≡ 4 }
    requires stated { AreStated 4 (matrix_cell matrix.old) }
    requires variable { variable < 4 }
    ensures size { matrix_size matrix.new ≡ 4 }
    ensures stated { AreStated 4 (matrix_cell matrix.new) }
    ensures own { matrix_cell matrix.new 0 variable ≢ no_bound }
    ensures kept { StaysStated 4 (matrix_cell matrix.old) (matrix_cell matrix.new) }
{
    matrix.bound(0, variable, 0);
    matrix.bound(variable, 0, 9);
}

// States bounds, none of which is lost.
fn put_bounds(matrix: &mut Matrix, bounds: &str) -> Result<(), Fail>
    requires size { matrix_size matrix.old ≡ 4 }
    requires stated { AreStated 4 (matrix_cell matrix.old) }
    requires leasts { HasLeasts 4 (matrix_cell matrix.old) }
    ensures size { matrix_size matrix.new ≡ 4 }
    ensures stated { AreStated 4 (matrix_cell matrix.new) }
    ensures leasts { HasLeasts 4 (matrix_cell matrix.new) }
{
    for bound in bounds.split(" , ") {
        put_bound(matrix, bound)?;
    }
    Ok(())
}

// States a bound, as `x - y <= -1`.
fn put_bound(matrix: &mut Matrix, bound: &str) -> Result<(), Fail>
    requires size { matrix_size matrix.old ≡ 4 }
    requires stated { AreStated 4 (matrix_cell matrix.old) }
    requires leasts { HasLeasts 4 (matrix_cell matrix.old) }
    ensures size { matrix_size matrix.new ≡ 4 }
    ensures stated { AreStated 4 (matrix_cell matrix.new) }
    ensures leasts { HasLeasts 4 (matrix_cell matrix.new) }
{
    let (difference, most) = halves(bound, " <= ");
    let (over, under) = halves(difference, " - ");
    let most: i64 = most.parse()?;
    if most.unsigned_abs() > 4_000_000_000_000 {
        return Err(Fail::new("the bound is too large"));
    }
    matrix.bound(variable(over), variable(under), most);
    Ok(())
}

// The number of a variable.
fn variable(name: &str) -> usize
    ensures { result < 4 }
{
    match name {
        "x" => 1,
        "y" => 2,
        "z" => 3,
        _ => 0,
    }
}

// Puts the least values.
fn put_point(found: &mut String, matrix: &Matrix) -> Result<(), Fail>
    requires size { matrix_size matrix.now ≡ 4 }
    requires closed { IsClosed 4 (matrix_cell matrix.now) }
    requires leasts { HasLeasts 4 (matrix_cell matrix.now) }
{
    let mut point = [7; 4];
    matrix.least_point(&mut point);
    Ok(write!(found, " {} {} {}", point[1], point[2], point[3])?)
}

#[test]
fn bounds_and_their_least_values(rt: HostRuntime) -> Result<(), Fail> {
    check(&rt, rt.alloc(), Told::Least, LEASTS, 30)
}

#[test]
fn a_matrix_is_cleared(rt: HostRuntime) -> Result<(), Fail> {
    let mut matrix = Matrix::make(rt.alloc(), 2)?;
    matrix.bound(0, 1, -2);
    matrix.bound(1, 0, 1);
    assert!(rt; !matrix.close());
    matrix.clear();
    matrix.bound(0, 1, -2);
    assert!(rt; matrix.close());
    let mut point = [7; 2];
    matrix.least_point(&mut point);
    assert!(rt; point == [0, 2]);
    Ok(())
}
