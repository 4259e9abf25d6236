// A job: the stages to run, and what to do with them, read from a text. Each line of the text is
//     # a remark
//     matrix E E E E E E E E E          nine coefficients in 65,536ths, row after row
//     curves CHANNELS LENGTH ENTRY ..   tables of LENGTH entries, one after the other
//     lattice INS OUTS GRID ENTRY ..    nodes of OUTS entries, the last in-channel moving on first
//     profile TAG FILE                  the element A2B0 or B2A0 of a profile, in place of other stages
//     row ENTERS LEAVES SAMPLE ..       pixel kinds gray8, rgb8, cmyk8 or rgb16, and the entering samples
//     colour COUNT ..                   one count for each channel
//     table COUNT                       lends so many numbers of the node table from here on, or all where it has fewer
//     begin GRID                        begins a link with so many grid points
//     fill BUDGET                       fills it, with so many nodes at most
//     print ENTERS LEAVES SAMPLE ..     a row as a kiosk prints it: through the link where it is full, else directly
//     link ENTERS LEAVES SAMPLE ..      a row through the link
//     quote                             tells the bounds
//     write                             writes the link as an element, reads it back and compares
//     drop                              drops the link
// Stages and profiles run in the order of their lines, and everything else is done in that order too.
use meaning::Channels;
use profile::Tag;
use stage::{Grid, TableLength, lattice_entries};
use std::alloc::{AllocError, Global};
use std::str::{FromStr, SplitWhitespace};
use std::{array, fmt};
use thiserror::Error;

// The pixel kinds by name.
#[derive(Clone, Copy)]
pub(crate) enum KindName {
    Gray8,
    Rgb8,
    Cmyk8,
    Rgb16,
}

impl FromStr for KindName {
    type Err = Reason;

    fn from_str(word: &str) -> Result<KindName, Reason> {
        match word {
            "gray8" => Ok(KindName::Gray8),
            "rgb8" => Ok(KindName::Rgb8),
            "cmyk8" => Ok(KindName::Cmyk8),
            "rgb16" => Ok(KindName::Rgb16),
            _ => Err(Reason::NotAPixelKind),
        }
    }
}

impl fmt::Display for KindName {
    fn fmt<W: fmt::Write>(&self, f: &mut fmt::Formatter<W>) -> fmt::Result {
        f.write_str(match self {
            KindName::Gray8 => "gray8",
            KindName::Rgb8 => "rgb8",
            KindName::Cmyk8 => "cmyk8",
            KindName::Rgb16 => "rgb16",
        })
    }
}

// The tables of curves: `length` entries for each channel.
#[derive(Drop)]
pub(crate) struct Tables {
    pub channels: Channels,
    pub length: TableLength,
    pub entries: Vec<u16>,
}

// The nodes of a lattice, with `grid` points in each in-channel.
#[derive(Drop)]
pub(crate) struct Nodes {
    pub ins: Channels,
    pub outs: Channels,
    pub grid: Grid,
    pub entries: Vec<u16>,
}

// A stage, as a line describes it.
#[derive(Drop)]
pub(crate) enum StageTask {
    Matrix([i32; 9]),
    Curves(Tables),
    Lattice(Nodes),
}

// Asked as the lines are read, so that a stage that does not fit is told with its line.
impl StageTask {
    fn ins(&self) -> Channels {
        match self {
            StageTask::Matrix(_) => Channels::Three,
            StageTask::Curves(tables) => tables.channels,
            StageTask::Lattice(nodes) => nodes.ins,
        }
    }

    fn outs(&self) -> Channels {
        match self {
            StageTask::Matrix(_) => Channels::Three,
            StageTask::Curves(tables) => tables.channels,
            StageTask::Lattice(nodes) => nodes.outs,
        }
    }
}

#[derive(Drop)]
pub(crate) struct RowTask {
    pub enters: KindName,
    pub leaves: KindName,
    pub samples: Vec<u16>,
}

// What is asked for.
#[derive(Drop)]
pub(crate) enum Task {
    // A row through the stage.
    Row(RowTask),
    // A row through the link where it is full, else through the stage.
    Print(RowTask),
    // A row through the link.
    LinkRow(RowTask),
    Colour(Vec<u16>),
    // How many numbers of the node table are lent.
    Table(usize),
    // How many grid points the link has.
    Begin(u32),
    // How many nodes to store at most.
    Fill(usize),
    Quote,
    Write,
    Drop,
}

// An element of a profile, and the file that the profile is in.
#[derive(Drop)]
pub(crate) struct ProfileTask {
    pub tag: Tag,
    pub path: String,
}

// The stages or else the profiles, in the order in which they run, and the tasks, each of which runs through them all.
#[derive(Drop)]
pub(crate) struct Job {
    pub stages: Vec<StageTask>,
    pub profiles: Vec<ProfileTask>,
    pub tasks: Vec<Task>,
}

// What is wrong with a line, or with the samples of a row.
#[derive(Debug, Drop, Error)]
pub(crate) enum Reason {
    #[error("a line begins with matrix, curves, lattice, profile, row, colour, table, begin, fill, print, link, quote, write, drop or #")]
    UnknownWord,
    #[error("a matrix is nine whole numbers from -2147483648 to 2147483647")]
    NotNineCoefficients,
    #[error("curves have 1, 3 or 4 channels")]
    NotAChannelNumber,
    #[error("a table has 2 to 4096 entries")]
    NotALength,
    #[error("a lattice takes and gives 1, 3 or 4 channels")]
    NotALatticeChannelNumber,
    #[error("a lattice has 2 to 255 grid points")]
    NotAGrid,
    #[error("the channels do not fit: this stage takes {takes}, and the one before it gives {given}")]
    Misfit { takes: usize, given: usize },
    #[error("this stage needs {wanted} entries, and the line gives {found}")]
    WrongEntryCount { wanted: usize, found: usize },
    #[error("a profile is A2B0 or B2A0, and the path of a file")]
    NotAProfile,
    #[error("a job has profiles or other stages, and not both")]
    Mixed,
    #[error("a colour has 1, 3 or 4 counts")]
    NotAColour,
    #[error("entries, samples and counts are whole numbers from 0 to 65535")]
    NotACount,
    #[error("a pixel kind is gray8, rgb8, cmyk8 or rgb16")]
    NotAPixelKind,
    #[error("a row has whole pixels, with samples up to 255 at 8 bits")]
    NotASample,
    #[error("a node table is lent by one whole number, how many numbers of it")]
    NotATableCount,
    #[error("a link is begun with one whole number, its grid points")]
    NotAGridNumber,
    #[error("a link is filled with one whole number, how many nodes at most")]
    NotABudget,
    #[error("nothing stands behind quote, write and drop")]
    NotAlone,
    #[error("there is not enough memory")]
    Memory(#[from(alloc)] AllocError),
}

// The first line of a job that is wrong.
#[derive(Debug, Drop, Error)]
#[error("line {line}: {reason}")]
pub(crate) struct BadLine {
    line: usize,
    reason: Reason,
}

// The rest of a line's words, and the heap for the numbers that they stand for.
#[derive(Drop)]
struct Words<'a> {
    heap: Global,
    rest: SplitWhitespace<'a>,
}

impl Words<'_> {
    // The value that the next word stands for, if there is a word and it stands for one.
    fn value<T: FromStr>(&mut self) -> Option<T>
    where
        T::Err: Drop,
    {
        self.rest.next()?.parse().ok()
    }

    // What the only word that is left stands for, if there is just one and it stands for something.
    fn only<T: FromStr + Drop>(mut self) -> Option<T>
    where
        T::Err: Drop,
    {
        let value = self.value()?;
        match self.rest.next() {
            None => Some(value),
            Some(_) => None,
        }
    }

    // A task whose word stands alone.
    fn alone(mut self, task: Task) -> Result<Task, Reason> {
        match self.rest.next() {
            None => Ok(task),
            Some(_) => Err(Reason::NotAlone),
        }
    }

    // A match on the words, since a parsed number would let 03 and +3 pass too.
    fn channels(&mut self) -> Option<Channels> {
        match self.rest.next()? {
            "1" => Some(Channels::One),
            "3" => Some(Channels::Three),
            "4" => Some(Channels::Four),
            _ => None,
        }
    }

    fn kind(&mut self) -> Result<KindName, Reason> {
        self.rest.next().ok_or(Reason::NotAPixelKind)?.parse()
    }

    // The counts that all the words stand for.
    fn counts(self) -> Result<Vec<u16>, Reason> {
        self.rest
            .map(|word| word.parse::<u16>().map_err(|_| Reason::NotACount))
            .try_collect(self.heap)
    }

    fn matrix(mut self) -> Result<[i32; 9], Reason> {
        let coefficients = array::try_from_fn(|_| self.value().ok_or(Reason::NotNineCoefficients))?;
        match self.rest.next() {
            None => Ok(coefficients),
            Some(_) => Err(Reason::NotNineCoefficients),
        }
    }

    // The entries that all the words stand for, just as many as a stage needs.
    fn entries(self, wanted: usize) -> Result<Vec<u16>, Reason> {
        let entries = self.counts()?;
        let found = entries.len();
        if wanted != found {
            return Err(Reason::WrongEntryCount { wanted, found });
        }
        Ok(entries)
    }

    fn tables(mut self) -> Result<Tables, Reason> {
        let channels = self.channels().ok_or(Reason::NotAChannelNumber)?;
        let length = self
            .value()
            .and_then(TableLength::new)
            .ok_or(Reason::NotALength)?;
        let entries = self.entries(channels.number() * usize::from(length.entries()))?;
        Ok(Tables {
            channels,
            length,
            entries,
        })
    }

    fn nodes(mut self) -> Result<Nodes, Reason> {
        let ins = self.channels().ok_or(Reason::NotALatticeChannelNumber)?;
        let outs = self.channels().ok_or(Reason::NotALatticeChannelNumber)?;
        let grid = self.value().and_then(Grid::new).ok_or(Reason::NotAGrid)?;
        let entries = self.entries(lattice_entries(ins, outs, grid.points()))?;
        Ok(Nodes {
            ins,
            outs,
            grid,
            entries,
        })
    }

    fn profile(mut self) -> Result<ProfileTask, Reason> {
        let tag = self
            .rest
            .next()
            .and_then(tag_of)
            .ok_or(Reason::NotAProfile)?;
        let path = self.rest.next().ok_or(Reason::NotAProfile)?;
        match self.rest.next() {
            None => Ok(ProfileTask {
                tag,
                path: path.to_string(self.heap)?,
            }),
            Some(_) => Err(Reason::NotAProfile),
        }
    }

    fn colour(self) -> Result<Vec<u16>, Reason> {
        colour_of(self.counts()?)
    }

    fn row(mut self) -> Result<RowTask, Reason> {
        let enters = self.kind()?;
        let leaves = self.kind()?;
        let samples = self.counts()?;
        Ok(RowTask {
            enters,
            leaves,
            samples,
        })
    }

    // The task that a line asks for, by its first word.
    fn task(self, word: &str) -> Result<Task, Reason> {
        match word {
            "row" => Ok(Task::Row(self.row()?)),
            "print" => Ok(Task::Print(self.row()?)),
            "link" => Ok(Task::LinkRow(self.row()?)),
            "colour" => Ok(Task::Colour(self.colour()?)),
            "table" => Ok(Task::Table(self.only().ok_or(Reason::NotATableCount)?)),
            "begin" => Ok(Task::Begin(self.only().ok_or(Reason::NotAGridNumber)?)),
            "fill" => Ok(Task::Fill(self.only().ok_or(Reason::NotABudget)?)),
            "quote" => self.alone(Task::Quote),
            "write" => self.alone(Task::Write),
            "drop" => self.alone(Task::Drop),
            _ => Err(Reason::UnknownWord),
        }
    }
}

// The counts of a colour, as many as a stage may take.
fn colour_of(counts: Vec<u16>) -> Result<Vec<u16>, Reason> {
    match counts.len() {
        1 | 3 | 4 => Ok(counts),
        _ => Err(Reason::NotAColour),
    }
}

fn tag_of(word: &str) -> Option<Tag> {
    match word {
        "A2B0" => Some(Tag::A2B0),
        "B2A0" => Some(Tag::B2A0),
        _ => None,
    }
}

impl Job {
    // A job that has nothing yet.
    fn new(heap: Global) -> Job {
        Job {
            stages: Vec::new(heap),
            profiles: Vec::new(heap),
            tasks: Vec::new(heap),
        }
    }

    // The job that a text describes, or the first line that is wrong.
    pub(crate) fn read(heap: Global, text: &str) -> Result<Job, BadLine> {
        let mut job = Job::new(heap);
        for (line, text) in (1..).zip(text.lines()) {
            job.take_line(heap, text)
                .map_err(|reason| BadLine { line, reason })?;
        }
        Ok(job)
    }

    // One line more of a job.
    fn take_line(&mut self, heap: Global, line: &str) -> Result<(), Reason> {
        let mut words = Words {
            heap,
            rest: line.split_whitespace(),
        };
        match words.rest.next() {
            None => Ok(()),
            Some("matrix") => self.take_stage(StageTask::Matrix(words.matrix()?)),
            Some("curves") => self.take_stage(StageTask::Curves(words.tables()?)),
            Some("lattice") => self.take_stage(StageTask::Lattice(words.nodes()?)),
            Some("profile") => self.take_profile(words.profile()?),
            Some(word) if word.starts_with('#') => Ok(()),
            Some(word) => self.take_task(words.task(word)?),
        }
    }

    // One stage more, which takes the channels that the one before it gives.
    fn take_stage(&mut self, stage: StageTask) -> Result<(), Reason> {
        if !self.profiles.is_empty() {
            return Err(Reason::Mixed);
        }
        if let Some(before) = self.stages.last() {
            let takes = stage.ins().number();
            let given = before.outs().number();
            if takes != given {
                return Err(Reason::Misfit { takes, given });
            }
        }
        self.stages.push(stage)?;
        Ok(())
    }

    // One profile more.
    fn take_profile(&mut self, profile: ProfileTask) -> Result<(), Reason> {
        if !self.stages.is_empty() {
            return Err(Reason::Mixed);
        }
        self.profiles.push(profile)?;
        Ok(())
    }

    // One task more.
    fn take_task(&mut self, task: Task) -> Result<(), Reason> {
        self.tasks.push(task)?;
        Ok(())
    }
}
