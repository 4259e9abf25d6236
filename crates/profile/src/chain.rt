// Chains of profiles: their elements, opened in turn and run one after the other.
ghost use Rattle.std.specs.Prelude.{◌≡◌, ◌+◌, ◌<◌, ◌≤◌, ◌∷◌, IfOk, IfErr, ℕ, length, nat_lt, vec_capacity};
ghost use Rattle.profile.specs.Chaining.{begun, lengthened, next_position, offered, opened_chain, opened_within, reported};
ghost use Rattle.profile.specs.ChainViews.{chain_view, chain_meaning, chain_lawful, means, chain_answer, room_left};
ghost use Rattle.profile.specs.Meetings.{Says};
ghost use Rattle.profile.specs.Opening.{viewed};
ghost use Rattle.profile.specs.Rooms.{profiles_in, slots_for};

use crate::element::Element;
use crate::fault::Fault;
use crate::opening::{Opened, open};
use crate::space::Space;
use crate::tag::Tag;
use meaning::Channels;
use stage::{Chain, Colour, Stage};
use std::marker::Model;

// A profile to open: its bytes, and which element of it.
#[derive(Clone, Copy)]
pub struct Source<'a> {
    pub bytes: &'a [u8],
    pub tag: Tag,
}

// Why a chain is not opened. Positions count the profiles from 0.
#[derive(Clone, Copy, PartialEq, Eq, Debug)]
pub enum ChainError {
    // A profile has a fault.
    Profile { position: usize, fault: Fault },
    // A profile does not take the space that the one before it gives.
    Spaces { position: usize },
    // The room is for fewer profiles. None of them was looked at.
    Room,
}

// The number of an error, and the position of the profile that has it.
#[derive(Clone, Copy, PartialEq, Eq, Debug)]
pub struct Report {
    pub number: u32,
    pub position: usize,
}

impl ChainError {
    // Nothing where the room is too small.
    pub fn report(self) -> Option<Report>
        ensures { result ≡ reported self }
    {
        match self {
            ChainError::Profile { position, fault } => Some(Report {
                number: fault.number(),
                position,
            }),
            ChainError::Spaces { position } => Some(Report {
                number: 13,
                position,
            }),
            ChainError::Room => None,
        }
    }
}

impl<'a> Source<'a> {
    // Opens it.
    fn open(&self) -> Result<Opened<'a>, Fault>
        ensures { viewed result ≡ offered self.now }
    {
        open(self.bytes, self.tag)
    }
}

// Room for the elements of a chain: memory that was set aside before any profile is looked at. Clauses see for how many profiles
// it is.
#[derive(Drop)]
pub struct ChainRoom<'a> {
    // For those after the first one.
    rest: Vec<Element<'a>>,
}

impl<'a> Model for ChainRoom<'a> {
    ghost use Rattle.std.specs.Prelude.{◌≡◌, ℕ, [], vec_capacity, vec_len};
    ghost use Rattle.profile.specs.Rooms.{profiles_in};

    ghost Value = { ℕ };

    ghost view = { λ room. profiles_in (vec_capacity room.rest) };

    ghost invariant = { λ room. (room.rest.items ≡ []) × (vec_len room.rest ≡ 0) };
}

impl<'a> ChainRoom<'a> {
    // How many slots the elements of so many profiles take: none for the first of them.
    pub fn slots(profiles: usize) -> usize
        ensures value { result ≡ slots_for profiles }
        // whatever vector has so many slots is room for these profiles
        ensures enough { (slots : ℕ) → result ≤ slots → profiles ≤ profiles_in slots }
    {
        profiles.saturating_sub(1)
    }

    // Room in the slots of a vector, whatever it holds. It takes no memory.
    pub fn over(mut slots: Vec<Element<'a>>) -> ChainRoom<'a>
        ensures { result ≡ profiles_in (vec_capacity slots.entry) }
    {
        slots.clear();
        ChainRoom { rest: slots }
    }

    // Whether it is large enough for one profile and so many after it.
    fn suffices(&self, further: usize) -> bool
        ensures { result ≡ nat_lt further self.now }
    {
        further <= self.rest.capacity()
    }

    // The chain of one profile, with room for the others.
    fn begin(self, source: &Source<'a>) -> Result<ElementChain<'a>, ChainError>
        ensures answer { chain_answer chain_view result ≡ begun (offered source.now) }
        ensures room { IfOk result (λ chain. self.entry ≤ 1 + room_left chain) }
    {
        let opened = source
            .open()
            .map_err(|fault| ChainError::Profile { position: 0, fault })?;
        Ok(ElementChain {
            first: opened.element,
            rest: self.rest,
            gives: opened.gives,
        })
    }
}

// Opened elements, one or more, each of which takes the space that the one before it gives.
#[derive(Drop)]
pub struct ElementChain<'a> {
    first: Element<'a>,
    rest: Vec<Element<'a>>,
    gives: Space,
}

impl<'a> ElementChain<'a> {
    // The position of the profile that comes next.
    fn next_position(&self) -> usize
        ensures { result ≡ next_position (chain_view self.now) }
    {
        self.rest.len() + 1
    }

    // One profile more. A chain that refuses it stays as it was.
    fn join(&mut self, source: &Source<'a>) -> Result<(), ChainError>
        requires { 0 < room_left self.old }
        ensures answer { chain_answer (λ _. chain_view self.new) result
            ≡ lengthened (chain_view self.old) (offered source.now) }
        ensures position { IfOk result (λ _.
            next_position (chain_view self.new) ≡ next_position (chain_view self.old) + 1) }
        ensures room { IfOk result (λ _. room_left self.old ≡ room_left self.new + 1) }
        ensures kept { IfErr result (λ _. chain_view self.new ≡ chain_view self.old) }
    {
        let position = self.next_position();
        let opened = source
            .open()
            .map_err(|fault| ChainError::Profile { position, fault })?;
        if opened.takes != self.gives {
            return Err(ChainError::Spaces { position });
        }
        self.rest.push_reserved(opened.element);
        self.gives = opened.gives;
        Ok(())
    }

    // Its elements as stages.
    fn stages(&self) -> Chain<'_, Element<'a>>
        ensures { means result ≡ chain_meaning (chain_view self.now) }
    {
        Chain::of(&self.first, self.rest.as_slice())
    }
}

impl Stage for ElementChain<'_> {
    ghost meaning = { λ s. chain_meaning (chain_view s) };

    ghost lawful = { λ s. chain_lawful (chain_view s) };

    fn ins(&self) -> Channels {
        self.stages().ins()
    }

    fn outs(&self) -> Channels {
        self.stages().outs()
    }

    fn steepness(&self) -> u32 {
        self.stages().steepness()
    }

    fn error(&self) -> u32 {
        self.stages().error()
    }

    fn answer(&self, colour: &Colour) -> Colour {
        self.stages().answer(colour)
    }
}

// Opens the profiles in turn, in room that suffices.
#[tactic(auto, using(crate::proofs::ChainingLaws::failed_first, crate::proofs::ChainingLaws::failed_later))]
fn open_all<'a>(
    room: ChainRoom<'a>,
    first: &Source<'a>,
    rest: &[Source<'a>],
) -> Result<ElementChain<'a>, ChainError>
    requires { length rest.now < room }
    ensures { chain_answer chain_view result ≡ opened_chain first.now rest.now }
{
    let mut chain = room.begin(first)?;
    for source in rest {
        chain.join(source)?;
    }
    Ok(chain)
}

// Opens the profiles in turn, one or more. The first one that has a fault, or does not take the space that the one before it
// gives, is told by its position. Only where the room is too small is none of them looked at. No bound is worked out:
// `Rated` does that, and keeps it.
#[tactic(auto, using(crate::proofs::MeetingLaws::says_of))]
pub fn open_chain<'a>(
    room: ChainRoom<'a>,
    first: &Source<'a>,
    rest: &[Source<'a>],
) -> Result<ElementChain<'a>, ChainError>
    // The answer, for every room and whatever the profiles hold.
    ensures value { chain_answer chain_view result ≡ opened_within room.entry first.now rest.now }
    // And what it says of them: which of them open and meet, and what is wrong with the next one.
    ensures says { Says room.entry (first.now ∷ rest.now) (chain_answer chain_view result) }
{
    if !room.suffices(rest.len()) {
        return Err(ChainError::Room);
    }
    open_all(room, first, rest)
}
