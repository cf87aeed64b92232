// Work on lines of numbers in a flat store, in place: the cut of lines in two halves, and the steps that make the starting numbers.
// A line's entries stand inner places apart. Nothing here knows of directions, boxes or polynomials.
#![tactic(auto)]

pub mod sides;

ghost use Rattle.std.specs.Prelude.{◌+◌, ◌*◌, ◌<◌, ◌≤◌, ◌^◌, pos, ◌+ℤ◌, ◌*ℤ◌, length};
ghost use Rattle.whole.specs.Half.{upper};
ghost use Rattle.lines.specs.Lines.{at, Under, InBlocks, half_at, only, InPlace, LinesCut, LinesSpread, ReadyBlocks};
ghost use Rattle.lines.specs.Inside.{RowPut, summed, raised, stepped, Row, Block, EntriesBelow, SumsBelow, RaisedBelow, Ready};

use std::array;

// The numbers of a row go to a. By `copy_from_slice` whole runs execute up to 67 % more instructions.
fn put_row<const W: usize>(s: &mut [i64], a: usize, row: &[i64; W])
    requires { a + W ≤ length s.old }
    ensures { RowPut a W (at row.now) s.old s.new }
{
    for f in 0..W {
        s[a + f] = row[f];
    }
}

// The W numbers at b are added to those at a. All are read before one is written, so that two are one vector.
fn add_row<const W: usize>(s: &mut [i64], a: usize, b: usize)
    requires { Row (2 ^ 62) W a (λ z. z) s.old × Row (2 ^ 62) W b (λ z. z) s.old }
    ensures { RowPut a W (λ f. at s.old (a + f) +ℤ at s.old (b + f)) s.old s.new }
{
    let row: [i64; W] = array::from_fn(|f| s[a + f] + s[b + f]);
    put_row(s, a, &row);
}

// The W numbers at b, times 2 ^ e, go to a.
fn scale_row<const W: usize>(s: &mut [i64], a: usize, b: usize, e: usize)
    requires { (e < 62) × (a + W ≤ length s.old) × Row (2 ^ 63) W b (λ z. pos (2 ^ e) *ℤ z) s.old }
    ensures { RowPut a W (λ f. pos (2 ^ e) *ℤ at s.old (b + f)) s.old s.new }
{
    let row: [i64; W] = array::from_fn(|f| whole::scaled(s[b + f], e));
    put_row(s, a, &row);
}

// Along each of the W lines at up: entry j is added to the one before it, the sum to the one before that, and so on to entry 0.
fn sums<const W: usize>(s: &mut [i64], up: usize, inner: usize, j: usize)
    requires { Block W up inner j s.old × EntriesBelow W up inner j s.old × SumsBelow W up inner j s.old }
    ensures { InPlace (summed j) (Under W) up inner j s.old s.new }
{
    for i in (0..j).rev() {
        let p = up + i * inner;
        add_row::<W>(s, p, p + inner);
    }
}

// Along each of the W lines at up entry i is multiplied by 2 ^ i.
fn raise<const N: usize, const W: usize>(s: &mut [i64], up: usize, inner: usize)
    requires { (N ≤ 6) × Block W up inner N s.old × RaisedBelow W up inner N s.old }
    ensures { InPlace raised (Under W) up inner N s.old s.new }
{
    for i in 1..N + 1 {
        let p = up + i * inner;
        scale_row::<W>(s, p, p, i);
    }
}

// W neighbouring lines of degree N are cut, with no line beside them: stage j makes column j of the triangle in place of column j - 1.
// The places up and lo and the distance stay parameters: in a struct each use would name it too, and each step further in the store would be a call.
#[inline(always)]
fn lines<const N: usize, const W: usize>(s: &mut [i64], up: usize, lo: usize, inner: usize)
    requires { Ready (half_at up lo) upper W inner N s.old }
    ensures { LinesCut (Under W) up lo inner N s.old s.new }
{
    for j in 0..N + 1 {
        sums::<W>(s, up, inner, j);
        scale_row::<W>(s, lo + j * inner, up, N - j);
    }
    raise::<N, W>(s, up, inner);
}

// The lines of a block, two at a time.
fn wide<const N: usize>(s: &mut [i64], up: usize, lo: usize, inner: usize)
    requires { Ready (half_at up lo) upper inner inner N s.old }
    ensures { LinesCut (Under inner) up lo inner N s.old s.new }
{
    for pair in 0..inner / 2 {
        let q = 2 * pair;
        lines::<N, 2>(s, up + q, lo + q, inner);
    }
    if inner % 2 == 1 {
        let q = inner - 1;
        lines::<N, 1>(s, up + q, lo + q, inner);
    }
}

// Every line of outer blocks that stand side by side, block after block.
fn each_block<const N: usize>(s: &mut [i64], up: usize, lo: usize, outer: usize, inner: usize)
    requires { ReadyBlocks (half_at up lo) upper outer inner N s.old }
    ensures { LinesCut (InBlocks ((N + 1) * inner) inner outer) up lo inner N s.old s.new }
{
    let size = (N + 1) * inner;
    for o in 0..outer {
        let d = o * size;
        wide::<N>(s, up + d, lo + d, inner);
    }
}

// The same where the entries of a line are neighbours: a block is one line, and the compiler, which knows the distance, makes a loop of its own.
fn each_line<const N: usize>(s: &mut [i64], up: usize, lo: usize, outer: usize)
    requires { ReadyBlocks (half_at up lo) upper outer 1 N s.old }
    ensures { LinesCut (InBlocks ((N + 1) * 1) 1 outer) up lo 1 N s.old s.new }
{
    for o in 0..outer {
        let d = o * (N + 1);
        lines::<N, 1>(s, up + d, lo + d, 1);
    }
}

// The lines of one direction at a degree that the compiler knows, so that it unrolls the loops over a line's entries.
fn at_degree<const N: usize>(s: &mut [i64], up: usize, lo: usize, outer: usize, inner: usize)
    requires { ReadyBlocks (half_at up lo) upper outer inner N s.old }
    ensures { LinesCut (InBlocks ((N + 1) * inner) inner outer) up lo inner N s.old s.new }
{
    if inner == 1 {
        each_line::<N>(s, up, lo, outer);
    } else {
        each_block::<N>(s, up, lo, outer, inner);
    }
}

// The lines of one direction of one or more polynomials.
pub fn blocks(s: &mut [i64], up: usize, lo: usize, outer: usize, inner: usize, n: usize)
    requires { ReadyBlocks (half_at up lo) upper outer inner n s.old }
    ensures { LinesCut (InBlocks ((n + 1) * inner) inner outer) up lo inner n s.old s.new }
{
    match n {
        0 => at_degree::<0>(s, up, lo, outer, inner),
        1 => at_degree::<1>(s, up, lo, outer, inner),
        2 => at_degree::<2>(s, up, lo, outer, inner),
        3 => at_degree::<3>(s, up, lo, outer, inner),
        4 => at_degree::<4>(s, up, lo, outer, inner),
        5 => at_degree::<5>(s, up, lo, outer, inner),
        _ => at_degree::<6>(s, up, lo, outer, inner),
    }
}

// Step k + 1 along the line at first, from its end on.
fn step(s: &mut [i64], first: usize, inner: usize, k: usize, n: usize)
    requires { (k ≤ n) × Block 1 first inner n s.old × EntriesBelow 1 first inner n s.old }
    ensures { InPlace (stepped k) (Under 1) first inner n s.old s.new }
{
    for j in (k..n).rev() {
        let p = first + j * inner;
        add_row::<1>(s, p + inner, p);
    }
}

// All n steps along the line at first.
fn spread(s: &mut [i64], first: usize, inner: usize, n: usize)
    requires { Ready (λ h. first) only 1 inner n s.old }
    ensures { LinesSpread (Under 1) first inner n s.old s.new }
{
    for k in 0..n {
        step(s, first, inner, k, n);
    }
}

// The lines of a block.
fn spread_block(s: &mut [i64], first: usize, inner: usize, n: usize)
    requires { Ready (λ h. first) only inner inner n s.old }
    ensures { LinesSpread (Under inner) first inner n s.old s.new }
{
    for q in 0..inner {
        spread(s, first + q, inner, n);
    }
}

// Every line of outer blocks. This runs once for a system, so it takes one line at a time.
// The cut has the same two loops: to share them the work would be a closure on the store, and what it promises there is longer than the loops.
pub fn spread_blocks(s: &mut [i64], first: usize, outer: usize, inner: usize, n: usize)
    requires { ReadyBlocks (λ h. first) only outer inner n s.old }
    ensures { LinesSpread (InBlocks ((n + 1) * inner) inner outer) first inner n s.old s.new }
{
    let size = (n + 1) * inner;
    for o in 0..outer {
        spread_block(s, first + o * size, inner, n);
    }
}
