//! Coefficients of rows.
ghost use Rattle.std.specs.Prelude.{◌≡◌, ◌+◌, ◌↔◌, length, map, IsTrue};
ghost use Rattle.std.specs.List.{All};
ghost use Rattle.fix_core.specs.Fixed.{IsInRange};
ghost use Rattle.kept_elimination.specs.Kept.{matrix_of, right_sides as right_sides_of};

use fix_core::Fix;
use sparse_row::SparseRow;

/// Whether the last rows have the same coefficients. These differ most often.
pub fn ends_alike(matrix: &[SparseRow], rows: &[SparseRow]) -> bool
    requires count { length matrix.now ≡ length rows.now }
    requires matrix { All (λ row. length row ≡ length rows.now) matrix.now }
    requires rows { All (λ row. length row ≡ length rows.now + 1) rows.now }
    ensures { matrix.now ≡ matrix_of rows.now → IsTrue result }
{
    let last = rows.len().saturating_sub(1);
    rows.is_empty() || matrix[last].begins(&rows[last])
}

/// Whether a matrix has the coefficients of the rows.
pub fn is_matrix_of(matrix: &[SparseRow], rows: &[SparseRow]) -> bool
    requires count { length matrix.now ≡ length rows.now }
    requires matrix { All (λ row. length row ≡ length rows.now) matrix.now }
    requires rows { All (λ row. length row ≡ length rows.now + 1) rows.now }
    ensures { IsTrue result ↔ (matrix.now ≡ matrix_of rows.now) }
{
    for i in 0..rows.len() {
        if !matrix[i].begins(&rows[i]) {
            return false;
        }
    }
    true
}

/// Copies the coefficients of the rows.
pub fn copy_matrix(matrix: &mut [SparseRow], rows: &[SparseRow])
    requires count { length matrix.old ≡ length rows.now }
    requires matrix { All (λ row. length row ≡ length rows.now) matrix.old }
    requires rows { All (λ row. length row ≡ length rows.now + 1) rows.now }
    ensures matrix { matrix.new ≡ matrix_of rows.now }
{
    for i in 0..rows.len() {
        matrix[i].copy_front(&rows[i]);
    }
}

/// Copies the right sides of the rows.
pub fn copy_right_sides(rows: &[SparseRow], numbers: &mut [Fix])
    requires count { length numbers.old ≡ length rows.now }
    requires rows { All (λ row. length row ≡ length rows.now + 1) rows.now }
    ensures numbers { numbers.new ≡ right_sides_of rows.now }
    ensures within { All IsInRange numbers.new }
{
    for i in 0..rows.len() {
        let right_side = rows[i].get(rows.len());
        // What is asked of the number is its range, for the proof.
        let _ = right_side.magnitude();
        numbers[i] = right_side;
    }
}

/// Each number is in its range. It is proved, and changes nothing.
pub fn see_ranges(numbers: &[Fix])
    ensures { All IsInRange numbers.now }
{
    for i in 0..numbers.len() {
        // What is asked of the number is its range, for the proof.
        let _ = numbers[i].magnitude();
    }
}
