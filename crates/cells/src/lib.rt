// The numbers of a grid's cells: (x, y) has y * w + x, and w * h stands for a point outside.
#![tactic(auto)]

ghost use Rattle.std.specs.Prelude.{◌≡◌, ◌+◌, ◌*◌, ◌/◌, ◌%◌, ◌≤◌, ◌<◌, IfSome};
ghost use Rattle.std.specs.Option.{IfNone};
ghost use Rattle.cells.specs.Cells.{most_side, sized_of, place_of, cell_of, cell_to, Sides, Within};

use points::Point;

// The longest side.
const SIDE: usize = 64;

// Whether the sides are in range.
#[tactic(auto, unfolding(crate::specs::Cells::sized_of))]
pub fn sized(w: usize, h: usize) -> bool
    ensures { result ≡ sized_of w h }
{
    (1..=SIDE).contains(&w) && (1..=SIDE).contains(&h)
}

// A coordinate as a number below the side, or the side itself where it is outside.
pub fn place(v: i32, side: usize) -> usize
    ensures { result ≡ place_of v side }
{
    match usize::try_from(v) {
        Ok(n) => n.min(side),
        Err(_) => side,
    }
}

// The number of the cell at a point, or w * h where the point is outside.
#[tactic(auto, unfolding(crate::specs::Cells::cell_of))]
pub fn cell_of(w: usize, h: usize, p: Point) -> usize
    requires { (w ≤ most_side) × (h ≤ most_side) }
    ensures { result ≡ cell_of w h p }
{
    let x = place(p.x, w);
    let y = place(p.y, h);
    if x < w && y < h { y * w + x } else { w * h }
}

// The sides of a grid.
#[derive(Clone, Copy)]
pub struct Size {
    pub w: usize,
    pub h: usize,
    ghost sides: { Sides w h },
}

impl Size {
    // How many cells there are.
    pub fn area(self) -> usize
        ensures { result ≡ self.w * self.h }
    {
        self.w * self.h
    }

    // The cell numbered i.
    #[tactic(auto, using(crate::proofs::Cell::row_lt))]
    pub fn cell(self, i: usize) -> Spot
        requires { i < self.w * self.h }
        ensures sides { (result.w ≡ self.w) × (result.h ≡ self.h) }
        ensures place { (result.x ≡ i % self.w) × (result.y ≡ i / self.w) }
    {
        Spot {
            w: self.w,
            h: self.h,
            x: i % self.w,
            y: i / self.w,
        }
    }
}

// A cell inside: the grid's sides, and the cell's column and row.
#[derive(Clone, Copy)]
pub struct Spot {
    pub w: usize,
    pub h: usize,
    pub x: usize,
    pub y: usize,
    ghost within: { Within w h x y },
}

impl Spot {
    // The cell's number.
    #[tactic(auto, using(crate::proofs::Cell::inside))]
    pub fn number(self) -> usize
        ensures place { result ≡ self.y * self.w + self.x }
        ensures inside { result < self.w * self.h }
    {
        self.y * self.w + self.x
    }

    // The number of the cell next to it in direction d, if there is one.
    #[tactic(auto, unfolding(crate::specs::Cells::cell_at), using(crate::proofs::Cell::cell_to_is))]
    pub fn next(self, d: u8) -> Option<usize>
        requires { d < 8 }
        ensures inside { IfSome result (λ i. (i ≡ cell_to self.w self.h self.x self.y d) × (i < self.w * self.h)) }
        ensures outside { IfNone result (self.w * self.h ≡ cell_to self.w self.h self.x self.y d) }
    {
        let p = self.x + directions::off_x(d);
        let q = self.y + directions::off_y(d);
        if (1..=self.w).contains(&p) && (1..=self.h).contains(&q) {
            Some((q - 1) * self.w + (p - 1))
        } else {
            None
        }
    }
}
