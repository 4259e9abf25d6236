// The matrix stage: nine signed coefficients, from three channels to three.
ghost use Rattle.std.specs.Prelude.{◌≡◌, ◌^◌, ◌<◌, ◌≤◌, min, pos, ◌-ℤ◌, ◌*ℤ◌};
ghost use Rattle.meaning.specs.Colours.{full_range, grains, whole, rounded};
ghost use Rattle.meaning.specs.Matrices.{adds, coefficient, row_sum, row_value, takes, weighted};
ghost use Rattle.meaning.specs.Matrices.{all_whole, is_whole_number, matrix};
ghost use Rattle.meaning.proofs.MatrixLaws.{matrix_lawful};

use crate::traits::{Colour, Stage};
use crate::weighing::nearest;
use meaning::{Channels, FULL_RANGE, GRAINS, UNCLAIMED, matrix_error};

// Coefficients in 65,536ths, row after row: row j gives channel j, and multiplies channel 0 first.
#[derive(Clone, Copy)]
pub struct Matrix {
    pub coefficients: [i32; 9],
}

// One row of a matrix.
#[derive(Clone, Copy)]
struct Row<'a> {
    matrix: &'a Matrix,
    number: usize,
    ghost inside: { number < 3 },
}

impl Matrix {
    // The matrix with these coefficients.
    pub fn new(coefficients: [i32; 9]) -> Matrix
        ensures { result.coefficients ≡ coefficients }
    {
        Matrix { coefficients }
    }

    fn row(&self, number: usize) -> Row<'_>
        requires { number < 3 }
        ensures matrix { result.matrix.now ≡ self.now }
        ensures number { result.number ≡ number }
    {
        Row {
            matrix: self,
            number,
        }
    }

    // Whether all coefficients are whole numbers: yes or no, with nothing beside it.
    fn is_whole(&self) -> bool
        ensures { result ≡ all_whole self.now.coefficients }
    {
        self.coefficients.iter().all(|e| is_whole_number(e))
    }
}

impl Row<'_> {
    // The coefficient of channel i.
    fn at(&self, i: usize) -> i32
        requires { i < 3 }
        ensures { result ≡ coefficient self.now.matrix.now.coefficients self.now.number i }
    {
        self.matrix.coefficients[3 * self.number + i]
    }

    // The sum of coefficient times channel.
    fn sum(&self, colour: &Colour) -> i64
        ensures { let es = self.now.matrix.now.coefficients in
            let taken = pos (weighted takes es self.now.number colour.now) in
            result ≡ pos (weighted adds es self.now.number colour.now) -ℤ taken }
    {
        product(self.at(0), colour[0])
            + product(self.at(1), colour[1])
            + product(self.at(2), colour[2])
    }

    // The row's channel of the answer.
    fn channel(&self, colour: &Colour) -> u16
        ensures { let coefficients = self.now.matrix.now.coefficients in
            result ≡ rounded (row_value coefficients (whole colour.now) self.now.number) grains }
    {
        nearest::<GRAINS>(held(self.sum(colour)))
    }

    // The sum of absolute coefficients.
    fn weight(&self) -> u64
        ensures { result ≡ row_sum self.now.matrix.now.coefficients self.now.number }
    {
        u64::from(self.at(0).unsigned_abs())
            + u64::from(self.at(1).unsigned_abs())
            + u64::from(self.at(2).unsigned_abs())
    }
}

// Whether a coefficient is a whole number.
fn is_whole_number(e: &i32) -> bool
    ensures { result ≡ is_whole_number e.now }
{
    e.unsigned_abs().is_multiple_of(GRAINS)
}

// A coefficient times a channel.
fn product(e: i32, a: u16) -> i64
    ensures value { result ≡ e *ℤ pos a }
    ensures adds { adds result ≤ 2 ^ 47 }
    ensures takes { takes result ≤ 2 ^ 47 }
{
    i64::from(e) * i64::from(a)
}

// A sum held to the range of a channel, 0 to 65,535 counts.
fn held(sum: i64) -> u64
    ensures { result ≡ min full_range (adds sum) }
{
    sum.clamp(0, i64::from(FULL_RANGE)) as u64
}

impl Stage for Matrix {
    ghost meaning = { λ s. matrix s.coefficients };

    ghost lawful = { λ s. matrix_lawful s.coefficients };

    fn ins(&self) -> Channels {
        Channels::Three
    }

    fn outs(&self) -> Channels {
        self.ins()
    }

    #[tactic(auto, unfolding(meaning::specs::Sums::largest_below))]
    fn steepness(&self) -> u32 {
        let [first, second, third] = [self.row(0), self.row(1), self.row(2)].map(
            |row| row.weight(),
        );
        let steepest = first.max(second).max(third);
        steepest.min(u64::from(UNCLAIMED)) as u32
    }

    fn error(&self) -> u32 {
        matrix_error(self.is_whole())
    }

    fn answer(&self, colour: &Colour) -> Colour {
        [
            self.row(0).channel(colour),
            self.row(1).channel(colour),
            self.row(2).channel(colour),
            0,
        ]
    }
}
