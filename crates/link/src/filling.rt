// The node filler: the colours that the nodes of a link stand for, and the stage's answers at some of them.
ghost use Rattle.std.specs.Prelude.{◌≡◌, ◌+◌, ◌-◌, ◌*◌, ◌/◌, ◌%◌, ◌^◌, ◌<◌, ◌≤◌, length};
ghost use Rattle.link.specs.Walks.{StandsAt};
ghost use Rattle.meaning.specs.Colours.{max_count, number};
ghost use Rattle.meaning.specs.Links.{grid_count, node_colour, nodes_from};
ghost use Rattle.stage.specs.Lattices.{points};

use meaning::{Channels, MAX_COUNT};
use stage::{Colour, Grid, Stage};

// The count that a grid point stands for, rounded and not cut.
fn grid_count(grid: Grid, point: u8) -> u16
    requires some { 2 ≤ points grid }
    requires within { point ≤ points grid - 1 }
    ensures { result ≡ grid_count (points grid) point }
{
    let steps = u32::from(grid.points()) - 1;
    ((2 * u32::from(point) * u32::from(MAX_COUNT) + steps) / (2 * steps)) as u16
}

// The grid point of a node along the channel that has so many channels behind it.
fn node_point(grid: Grid, node: usize, behind: u32) -> u8
    requires some { 2 ≤ points grid }
    requires few { behind ≤ 3 }
    ensures value { result ≡ node / points grid ^ behind % points grid }
    ensures within { result ≤ points grid - 1 }
{
    let points = usize::from(grid.points());
    (node / points.pow(behind) % points) as u8
}

// The colour that a node stands for.
fn node_colour(ins: Channels, grid: Grid, node: usize) -> Colour
    requires { 2 ≤ points grid }
    ensures { result ≡ node_colour ins (points grid) node }
{
    let count = |behind: u32| -> u16
        requires { (2 ≤ points grid) × (behind ≤ 3) }
        ensures { result ≡ grid_count (points grid) (node / points grid ^ behind % points grid) }
    { grid_count(grid, node_point(grid, node, behind)) };
    match ins {
        Channels::One => [count(0), 0, 0, 0],
        Channels::Three => [count(2), count(1), count(0), 0],
        Channels::Four => [count(3), count(2), count(1), count(0)],
    }
}

// The whole counts from one grid point to the next: the next count lies so many higher, or one more by rounding.
fn whole_counts(grid: Grid) -> u16
    requires { 2 ≤ points grid }
    ensures { result ≡ max_count / (points grid - 1) }
{
    MAX_COUNT / u16::from(grid.points() - 1)
}

// The count that the next grid point stands for, from that of the point before it, without a division.
fn next_count(grid: Grid, point: u8, count: u16, whole: u16) -> u16
    requires some { 2 ≤ points grid }
    requires within { point + 1 ≤ points grid - 1 }
    requires here { count ≡ grid_count (points grid) point }
    requires whole { whole ≡ max_count / (points grid - 1) }
    ensures { result ≡ grid_count (points grid) (point + 1) }
{
    let steps = u32::from(grid.points()) - 1;
    let low = u32::from(count) + u32::from(whole);
    let next = 2 * (u32::from(point) + 1) * u32::from(MAX_COUNT) + steps;
    if 2 * steps * (low + 1) <= next {
        (low + 1) as u16
    } else {
        low as u16
    }
}

// A walk through the nodes of a lattice: the colour of the node where it stands, the node's grid point along the last
// channel, and the whole counts from one grid point to the next.
#[derive(Drop)]
struct Walk {
    grid: Grid,
    whole: u16,
    point: u8,
    colour: Colour,
}

impl Walk {
    // A walk that stands at a node.
    fn at(ins: Channels, grid: Grid, node: usize) -> Walk
        requires { 2 ≤ points grid }
        ensures { StandsAt ins (points grid) node result }
    {
        Walk {
            grid,
            whole: whole_counts(grid),
            point: node_point(grid, node, 0),
            colour: node_colour(ins, grid, node),
        }
    }

    // On to the next node: along a line of nodes only the last channel's count changes.
    fn step(&mut self, ins: Channels, node: usize)
        requires limit { node + 1 < 2 ^ 64 }
        requires here { StandsAt ins (points self.old.grid) node self.old }
        ensures { StandsAt ins (points self.old.grid) (node + 1) self.new }
    {
        if self.point + 1 == self.grid.points() {
            *self = Walk::at(ins, self.grid, node + 1);
        } else {
            let last = &mut self.colour[ins.number() - 1];
            *last = next_count(self.grid, self.point, *last, self.whole);
            self.point += 1;
        }
    }
}

// The stage's answer where a walk stands.
fn answer_at<S: Stage>(stage: &S, walk: &Walk) -> Colour
    ensures { result ≡ (S.Stage.meaning stage.now).answer walk.now.colour }
{
    stage.answer(&walk.colour)
}

// The stage's answers at the nodes from `first` on, stored in the part of a table that holds just these nodes.
pub(crate) fn store<S: Stage>(stage: &S, grid: Grid, first: usize, count: usize, part: &mut [u16])
    requires some { 2 ≤ points grid }
    requires limit { first + count < 2 ^ 64 }
    requires whole { length part.old ≡ count * number (S.Stage.meaning stage.now).outs }
    ensures { part.new ≡ nodes_from (S.Stage.meaning stage.now) (points grid) first count }
{
    let outs = stage.outs().number();
    let mut walk = Walk::at(stage.ins(), grid, first);
    for k in 0..count {
        let answer = answer_at(stage, &walk);
        part[k * outs..(k + 1) * outs].copy_from_slice(&answer[..outs]);
        walk.step(stage.ins(), first + k);
    }
}
