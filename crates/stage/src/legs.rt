// Legs: the step that samples take along one channel of a lattice, from a node to its neighbour,
// and the three steps that lead from corner to corner of a tetrahedron.
ghost use Rattle.std.specs.Prelude.{◌≡◌, ◌+◌, ◌-◌, ◌*◌, ◌^◌, ◌≤◌, [], ◌∷◌};
ghost use Rattle.stage.specs.Legs.{Falling, Kept, Three};
ghost use Rattle.stage.specs.Legs.{corners_from, leg, ordered, sorted, start_of, weighed};

use crate::weighing::SAMPLES;
use meaning::MAX_COUNT;
use std::marker::Model;

// Along one channel, the index of the node below, how many entries away its neighbour lies, and how
// many of the samples step over to it.
#[derive(Clone, Copy)]
pub(crate) struct Leg {
    pub index: u8,
    pub stride: u32,
    pub rest: u16,
}

// Three legs, the one that most samples take first, and the entries before the nodes below, of all
// three.
#[derive(Drop)]
pub(crate) struct Legs {
    start: usize,
    most: Leg,
    middle: Leg,
    least: Leg,
}

impl Model for Legs {
    ghost Value = { Three };

    ghost view = { λ t. record { most = t.most; middle = t.middle; least = t.least } };

    ghost invariant = { λ t.
        Kept t.start (record { most = t.most; middle = t.middle; least = t.least }) };
}

// The leg of a channel that a lattice does not have. No sample takes it, so that one sum of corners
// serves one channel and three; an option would be asked at each corner.
pub(crate) const IDLE: Leg = Leg {
    index: 0,
    stride: 0,
    rest: 0,
};

impl Leg {
    // The leg of a count in a channel of `steps` steps, with neighbours `stride` entries apart.
    pub(crate) fn new(count: u16, steps: u8, stride: u32) -> Leg
        ensures { result ≡ leg count steps stride }
    {
        let position = u32::from(count) * u32::from(steps);
        Leg {
            index: (position / SAMPLES) as u8,
            stride,
            rest: (position % SAMPLES) as u16,
        }
    }

    // The entries that lie before the node below.
    pub(crate) fn start(&self) -> usize
        ensures value { result ≡ start_of self.now }
        ensures limit { result ≤ 2 ^ 40 }
    {
        usize::from(self.index) * self.stride as usize
    }
}

// Two legs, the one that more samples take first.
fn falling(a: Leg, b: Leg) -> (Leg, Leg)
    ensures { result ≡ ordered a b }
{
    if a.rest < b.rest { (b, a) } else { (a, b) }
}

// What a number of samples add up to that all read one count.
fn read_by(samples: u16, count: u16) -> u32
    ensures value { result ≡ samples * count }
    ensures limit { result ≤ samples * 65535 }
{
    u32::from(samples) * u32::from(count)
}

impl Legs {
    // Three legs in order. A stable sort would ask for memory, and the other leaves the order of
    // equal rests open, which the definition fixes.
    pub(crate) fn sorted(a: Leg, b: Leg, c: Leg) -> Legs
        ensures { result ≡ sorted a b c }
    {
        let start = a.start() + b.start() + c.start();
        let (a, b) = falling(a, b);
        let (b, c) = falling(b, c);
        let (a, b) = falling(a, b);
        Legs {
            start,
            most: a,
            middle: b,
            least: c,
        }
    }

    // The places of the four corners, counted from `place`, which is limited so that they have one.
    pub(crate) fn corners(&self, place: usize) -> [usize; 4]
        requires { place ≤ 2 ^ 42 }
        ensures places { result ≡ corners_from self.now place }
        ensures order { Falling self.now }
    {
        let base = place + self.start;
        let second = base + self.most.stride as usize;
        let third = second + self.middle.stride as usize;
        [base, second, third, third + self.least.stride as usize]
    }

    // The counts at the corners, each weighed by the samples that read it. Each function that hands
    // such a sum on states its `limit`; a type that carried it would need the same proofs.
    pub(crate) fn weigh(&self, base: u16, second: u16, third: u16, last: u16) -> u32
        ensures value { result ≡ weighed self.now (base ∷ second ∷ third ∷ last ∷ []) }
        ensures limit { result ≤ 65535 * 65535 }
    {
        let (most, middle, least) = (self.most.rest, self.middle.rest, self.least.rest);
        read_by(MAX_COUNT - most, base)
            + read_by(most - middle, second)
            + read_by(middle - least, third)
            + read_by(least, last)
    }
}
