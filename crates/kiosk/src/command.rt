// The arguments of a call, as the command that they ask for.
use crate::profiles::Named;
use crate::quote::{FEWEST, MOST};
use crate::usage;
use meaning::{CHANNELS, Channels};
use stage::{Colour, Grid};
use std::alloc::{AllocError, Global};
use thiserror::Error;

// Which links a quote is for.
#[derive(Clone, Copy)]
pub(crate) enum LinkQuotes {
    Without,
    One(Grid),
    All,
}

#[derive(Drop)]
pub(crate) struct QuoteCall<'a> {
    pub profiles: Vec<Named<'a>>,
    pub links: LinkQuotes,
}

// A link to print through, and how many of its nodes are filled before each row, or all before the first.
#[derive(Clone, Copy)]
pub(crate) struct LinkCall {
    pub grid: Grid,
    pub budget: Option<usize>,
}

#[derive(Drop)]
pub(crate) struct ConvertCall<'a> {
    pub profiles: Vec<Named<'a>>,
    pub link: Option<LinkCall>,
    pub input: &'a str,
    pub output: &'a str,
}

#[derive(Drop)]
pub(crate) struct BakeCall<'a> {
    pub profiles: Vec<Named<'a>>,
    pub grid: Grid,
    pub output: &'a str,
}

// The counts of a colour, as the call gives them.
#[derive(Clone, Copy)]
pub(crate) struct Counts<'a> {
    pub text: &'a str,
    pub channels: Channels,
    pub colour: Colour,
}

#[derive(Drop)]
pub(crate) struct ColoursCall<'a> {
    pub profiles: Vec<Named<'a>>,
    pub colours: Vec<Counts<'a>>,
}

#[derive(Drop)]
pub(crate) enum Command<'a> {
    Help,
    Inspect(Vec<&'a str>),
    Quote(QuoteCall<'a>),
    Convert(ConvertCall<'a>),
    Bake(BakeCall<'a>),
    Colours(ColoursCall<'a>),
}

// What is wrong with a call.
#[derive(Debug, Drop, Error)]
pub(crate) enum WrongCall<'a> {
    #[error("no subcommand is named")]
    NoSubcommand,
    #[error("there is no subcommand {0}")]
    UnknownSubcommand(&'a str),
    #[error("there is no option {0}")]
    UnknownOption(&'a str),
    #[error("the option {0} is none of this subcommand")]
    ForeignOption(&'static str),
    #[error("the option {0} is given twice")]
    Twice(&'static str),
    #[error("the option {0} has nothing behind it")]
    NoValue(&'static str),
    #[error("behind {option} stands a whole number, and {value} is none")]
    NotANumber {
        option: &'static str,
        value: &'a str,
    },
    #[error("a link has 2 to 33 grid points, and not {0}")]
    NotAGrid(&'a str),
    #[error("a budget is one node or more, and not 0")]
    NoBudget,
    #[error("--budget is nothing without --grid")]
    BudgetAlone,
    #[error("--grid asks for one link and --all for all of them: give one of the two")]
    GridAndAll,
    #[error("a link has grid points: give them behind --grid")]
    NoGrid,
    #[error("no file is named")]
    NoFile,
    #[error("no profile is named")]
    NoProfile,
    #[error("{0} is no profile: it is named as A2B0:FILE or B2A0:FILE")]
    NotAProfile(&'a str),
    #[error("behind the profiles stand the picture to read and the file to write")]
    NoPictures,
    #[error("behind the profiles stands the file to write")]
    NoOutput,
    #[error("no colour is given")]
    NoColour,
    #[error("{0} is neither a profile, A2B0:FILE or B2A0:FILE, nor a colour, 1, 3 or 4 counts from 0 to 65535 with commas between")]
    NotAColour(&'a str),
    #[error("there is not enough memory")]
    Memory(#[from(alloc)] AllocError),
}

// A wrong call, and how the subcommand is called.
#[derive(Drop)]
pub(crate) struct BadCall<'a> {
    pub wrong: WrongCall<'a>,
    pub usage: &'static str,
}

// The options that have a value.
#[derive(Clone, Copy)]
enum Valued {
    Grid,
    Budget,
}

impl Valued {
    fn name(self) -> &'static str {
        match self {
            Valued::Grid => "--grid",
            Valued::Budget => "--budget",
        }
    }
}

// The arguments behind the subcommand: those that stand alone, in their order, and the options.
#[derive(Drop)]
struct Words<'a> {
    alone: Vec<&'a str>,
    grid: Option<&'a str>,
    budget: Option<&'a str>,
    all: bool,
    // The option whose value comes next.
    awaited: Option<Valued>,
}

// Sets an option that is not set yet.
fn set<'a>(
    place: &mut Option<&'a str>,
    option: Valued,
    value: &'a str,
) -> Result<(), WrongCall<'a>> {
    if place.is_some() {
        return Err(WrongCall::Twice(option.name()));
    }
    *place = Some(value);
    Ok(())
}

// The grid that a value names.
fn grid_of(value: &str) -> Result<Grid, WrongCall<'_>> {
    let points = value.parse::<u64>().map_err(|_| WrongCall::NotANumber {
        option: "--grid",
        value,
    })?;
    u8::try_from(points)
        .ok()
        .filter(|points| (FEWEST..=MOST).contains(points))
        .and_then(Grid::new)
        .ok_or(WrongCall::NotAGrid(value))
}

// The budget that a value names.
fn budget_of(value: &str) -> Result<usize, WrongCall<'_>> {
    match value.parse::<usize>() {
        Ok(0) => Err(WrongCall::NoBudget),
        Ok(budget) => Ok(budget),
        Err(_) => Err(WrongCall::NotANumber {
            option: "--budget",
            value,
        }),
    }
}

// The profiles that some words name, one or more.
fn named<'a>(heap: Global, words: &[&'a str]) -> Result<Vec<Named<'a>>, WrongCall<'a>> {
    if words.is_empty() {
        return Err(WrongCall::NoProfile);
    }
    let mut profiles = Vec::new(heap);
    for word in words {
        profiles.push(Named::of(*word).ok_or(WrongCall::NotAProfile(*word))?)?;
    }
    Ok(profiles)
}

// The counts that a word gives, if it is a colour.
fn counts_of(text: &str) -> Option<Counts<'_>> {
    let mut colour = [0; CHANNELS];
    let mut given = 0usize;
    for word in text.split(',') {
        *colour.get_mut(given)? = word.parse().ok()?;
        given = given.saturating_add(1);
    }
    let channels = match given {
        1 => Channels::One,
        3 => Channels::Three,
        4 => Channels::Four,
        _ => return None,
    };
    Some(Counts {
        text,
        channels,
        colour,
    })
}

impl<'a> Words<'a> {
    fn read(heap: Global, arguments: &'a [String]) -> Result<Words<'a>, WrongCall<'a>> {
        let mut words = Words {
            alone: Vec::new(heap),
            grid: None,
            budget: None,
            all: false,
            awaited: None,
        };
        for argument in arguments {
            words.take(argument.as_str())?;
        }
        match words.awaited {
            None => Ok(words),
            Some(option) => Err(WrongCall::NoValue(option.name())),
        }
    }

    // One argument more.
    fn take(&mut self, word: &'a str) -> Result<(), WrongCall<'a>> {
        let awaited = self.awaited;
        self.awaited = None;
        match (awaited, word) {
            (Some(Valued::Grid), value) => set(&mut self.grid, Valued::Grid, value),
            (Some(Valued::Budget), value) => set(&mut self.budget, Valued::Budget, value),
            (None, "--grid") => {
                self.awaited = Some(Valued::Grid);
                Ok(())
            }
            (None, "--budget") => {
                self.awaited = Some(Valued::Budget);
                Ok(())
            }
            (None, "--all") if self.all => Err(WrongCall::Twice("--all")),
            (None, "--all") => {
                self.all = true;
                Ok(())
            }
            (None, word) if word.starts_with("--") => Err(WrongCall::UnknownOption(word)),
            (None, word) => {
                self.alone.push(word)?;
                Ok(())
            }
        }
    }

    fn without_grid(&self) -> Result<(), WrongCall<'a>> {
        match self.grid {
            None => Ok(()),
            Some(_) => Err(WrongCall::ForeignOption("--grid")),
        }
    }

    fn without_budget(&self) -> Result<(), WrongCall<'a>> {
        match self.budget {
            None => Ok(()),
            Some(_) => Err(WrongCall::ForeignOption("--budget")),
        }
    }

    fn without_all(&self) -> Result<(), WrongCall<'a>> {
        if self.all {
            return Err(WrongCall::ForeignOption("--all"));
        }
        Ok(())
    }

    fn inspect(self) -> Result<Command<'a>, WrongCall<'a>> {
        self.without_grid()?;
        self.without_budget()?;
        self.without_all()?;
        if self.alone.is_empty() {
            return Err(WrongCall::NoFile);
        }
        Ok(Command::Inspect(self.alone))
    }

    fn quote(self, heap: Global) -> Result<Command<'a>, WrongCall<'a>> {
        self.without_budget()?;
        let links = match (self.grid, self.all) {
            (Some(_), true) => return Err(WrongCall::GridAndAll),
            (Some(value), false) => LinkQuotes::One(grid_of(value)?),
            (None, true) => LinkQuotes::All,
            (None, false) => LinkQuotes::Without,
        };
        let profiles = named(heap, self.alone.as_slice())?;
        Ok(Command::Quote(QuoteCall { profiles, links }))
    }

    // The link that a conversion goes through, if it does.
    fn link(&self) -> Result<Option<LinkCall>, WrongCall<'a>> {
        let budget = match self.budget {
            None => None,
            Some(value) => Some(budget_of(value)?),
        };
        match (self.grid, budget) {
            (Some(value), budget) => {
                let grid = grid_of(value)?;
                Ok(Some(LinkCall { grid, budget }))
            }
            (None, None) => Ok(None),
            (None, Some(_)) => Err(WrongCall::BudgetAlone),
        }
    }

    fn convert(self, heap: Global) -> Result<Command<'a>, WrongCall<'a>> {
        self.without_all()?;
        let link = self.link()?;
        let (profiles, input, output) = match self.alone.as_slice() {
            [profiles @ .., input, output] => (profiles, *input, *output),
            _ => return Err(WrongCall::NoPictures),
        };
        if Named::of(input).is_some() || Named::of(output).is_some() {
            return Err(WrongCall::NoPictures);
        }
        let profiles = named(heap, profiles)?;
        Ok(Command::Convert(ConvertCall {
            profiles,
            link,
            input,
            output,
        }))
    }

    fn bake(self, heap: Global) -> Result<Command<'a>, WrongCall<'a>> {
        self.without_budget()?;
        self.without_all()?;
        let grid = grid_of(self.grid.ok_or(WrongCall::NoGrid)?)?;
        let Some((output, profiles)) = self.alone.as_slice().split_last() else {
            return Err(WrongCall::NoOutput);
        };
        let output = *output;
        if Named::of(output).is_some() {
            return Err(WrongCall::NoOutput);
        }
        let profiles = named(heap, profiles)?;
        Ok(Command::Bake(BakeCall {
            profiles,
            grid,
            output,
        }))
    }

    // Profiles and colours in any order.
    fn colours(self, heap: Global) -> Result<Command<'a>, WrongCall<'a>> {
        self.without_grid()?;
        self.without_budget()?;
        self.without_all()?;
        let mut profiles = Vec::new(heap);
        let mut colours = Vec::new(heap);
        for word in self.alone.iter() {
            match Named::of(*word) {
                Some(named) => profiles.push(named)?,
                None => colours.push(counts_of(*word).ok_or(WrongCall::NotAColour(*word))?)?,
            }
        }
        if profiles.is_empty() {
            return Err(WrongCall::NoProfile);
        }
        if colours.is_empty() {
            return Err(WrongCall::NoColour);
        }
        Ok(Command::Colours(ColoursCall { profiles, colours }))
    }
}

// The subcommands that take arguments.
#[derive(Clone, Copy)]
enum Subcommand {
    Inspect,
    Quote,
    Convert,
    Bake,
    Colours,
}

impl Subcommand {
    fn of(word: &str) -> Option<Subcommand> {
        match word {
            "inspect" => Some(Subcommand::Inspect),
            "quote" => Some(Subcommand::Quote),
            "convert" => Some(Subcommand::Convert),
            "bake" => Some(Subcommand::Bake),
            "colours" => Some(Subcommand::Colours),
            _ => None,
        }
    }

    fn usage(self) -> &'static str {
        match self {
            Subcommand::Inspect => usage::INSPECT,
            Subcommand::Quote => usage::QUOTE,
            Subcommand::Convert => usage::CONVERT,
            Subcommand::Bake => usage::BAKE,
            Subcommand::Colours => usage::COLOURS,
        }
    }

    fn read<'a>(self, heap: Global, rest: &'a [String]) -> Result<Command<'a>, WrongCall<'a>> {
        let words = Words::read(heap, rest)?;
        match self {
            Subcommand::Inspect => words.inspect(),
            Subcommand::Quote => words.quote(heap),
            Subcommand::Convert => words.convert(heap),
            Subcommand::Bake => words.bake(heap),
            Subcommand::Colours => words.colours(heap),
        }
    }
}

impl<'a> Command<'a> {
    // The command that the arguments ask for, or what is wrong with them.
    pub(crate) fn read(heap: Global, arguments: &'a [String]) -> Result<Command<'a>, BadCall<'a>> {
        let bad = |wrong| BadCall {
            wrong,
            usage: usage::ANY,
        };
        let Some((first, rest)) = arguments.split_first() else {
            return Err(bad(WrongCall::NoSubcommand));
        };
        let first = first.as_str();
        if first == "help" {
            return Ok(Command::Help);
        }
        let Some(subcommand) = Subcommand::of(first) else {
            return Err(bad(WrongCall::UnknownSubcommand(first)));
        };
        subcommand.read(heap, rest).map_err(|wrong| BadCall {
            wrong,
            usage: subcommand.usage(),
        })
    }
}
