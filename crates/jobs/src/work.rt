// A kiosk at work: a converter over the stage of a job, the node table that is lent to it, and what the job asks for.
use crate::job::{RowTask, Task};
use crate::row_run::{Route, RowRun};
use crate::shown::{Bound, Refused, Standing, print_bound, print_counts};
use crate::written::write_link;
use link::{Converter, Filled, Quote, State};
use stage::{Colour, Rated, Stage};
use std::array;

// The node table, and how much of it is lent.
#[derive(Drop)]
struct LentTable {
    numbers: Vec<u16>,
    // The first so many are lent, or all where there are fewer.
    lent: usize,
}

impl LentTable {
    fn lent(&self) -> &[u16] {
        let end = self.lent.min(self.numbers.len());
        &self.numbers.as_slice()[..end]
    }

    fn lent_mut(&mut self) -> &mut [u16] {
        let end = self.lent.min(self.numbers.len());
        &mut self.numbers.as_mut_slice()[..end]
    }
}

#[derive(Drop)]
pub(crate) struct Work<'a, S: Stage> {
    rt: &'a HostRuntime,
    converter: Converter<S>,
    table: LentTable,
}

// How many numbers the largest link has that is begun.
fn largest_link<S: Stage>(converter: &Converter<S>, tasks: &[Task]) -> usize {
    let mut largest = 0;
    for task in tasks {
        if let Task::Begin(points) = task {
            largest = converter.table_length(*points).unwrap_or(0).max(largest);
        }
    }
    largest
}

impl<'a, S: Stage + Drop> Work<'a, S> {
    // With a table that has room for each link that the tasks begin.
    pub(crate) fn new(
        rt: &'a HostRuntime,
        stage: S,
        tasks: &[Task],
    ) -> anyhow::Result<Work<'a, S>> {
        let converter = Converter::new(stage);
        let lent = largest_link(&converter, tasks);
        let numbers = vec![in rt.alloc(); 0; lent]?;
        Ok(Work {
            rt,
            converter,
            table: LentTable { numbers, lent },
        })
    }

    // The stage, with its figures.
    pub(crate) fn stage(&self) -> &Rated<S> {
        self.converter.stage()
    }

    // Everything that is asked for, in its order.
    pub(crate) fn run(&mut self, tasks: &[Task]) -> anyhow::Result<()> {
        for task in tasks {
            self.carry_out(task)?;
        }
        Ok(())
    }

    fn carry_out(&mut self, task: &Task) -> anyhow::Result<()> {
        match task {
            Task::Row(row) => self.send("row", Route::Direct, row),
            Task::Print(row) => self.print(row),
            Task::LinkRow(row) => self.send("link row", Route::Link, row),
            Task::Colour(counts) => self.colour(counts.as_slice()),
            Task::Table(count) => self.lend(*count),
            Task::Begin(points) => self.begin(*points),
            Task::Fill(budget) => self.fill(*budget),
            Task::Quote => self.quote(),
            Task::Write => write_link(self.rt, &self.converter, self.table.lent()),
            Task::Drop => self.drop_link(),
        }
    }

    fn send(&self, name: &'static str, route: Route, task: &RowTask) -> anyhow::Result<()> {
        RowRun {
            rt: self.rt,
            converter: &self.converter,
            table: self.table.lent(),
            route,
            name,
            task,
        }
        .run()
    }

    // A row as a kiosk prints it, which does not wait for the link.
    fn print(&self, row: &RowTask) -> anyhow::Result<()> {
        match self.converter.state() {
            State::Full { .. } => self.send("print through the link", Route::Link, row),
            State::Empty | State::Filling { .. } => {
                self.send("print directly", Route::Direct, row)
            }
        }
    }

    // A colour, and the stage's answer to it.
    fn colour(&self, counts: &[u16]) -> anyhow::Result<()> {
        let rt = self.rt;
        let stage = self.converter.stage();
        print!(rt; "  colour")?;
        print_counts(rt, counts)?;
        let takes = stage.ins().number();
        if counts.len() != takes {
            println!(rt; ": not run, since the stages take {takes} channels")?;
            return Ok(());
        }
        let colour: Colour = array::from_fn(|k| counts.get(k).copied().unwrap_or(0));
        print!(rt; " ->")?;
        print_counts(rt, &stage.answer(&colour)[..stage.outs().number()])?;
        println!(rt; "")?;
        print_bound(rt, stage.error())
    }

    fn lend(&mut self, count: usize) -> anyhow::Result<()> {
        self.table.lent = count;
        let numbers = self.table.lent().len();
        println!(self.rt; "  table: {numbers} numbers lent")?;
        Ok(())
    }

    fn begin(&mut self, points: u32) -> anyhow::Result<()> {
        let rt = self.rt;
        print!(rt; "  begin {points}")?;
        if let Err(refusal) = self.converter.begin(self.table.lent(), points) {
            print!(rt; ": {}", Refused(refusal))?;
        }
        self.tell_link()
    }

    fn fill(&mut self, budget: usize) -> anyhow::Result<()> {
        let rt = self.rt;
        print!(rt; "  fill {budget}: ")?;
        match self.converter.fill(self.table.lent_mut(), budget) {
            Ok(Filled { stored, missing }) => { print!(rt; "{stored} stored, {missing} missing")? }
            Err(refusal) => print!(rt; "{}", Refused(refusal))?,
        }
        self.tell_link()
    }

    fn quote(&self) -> anyhow::Result<()> {
        let rt = self.rt;
        let Quote { stage, link } = self.converter.quote();
        print!(rt; "  quote: stage {}", Bound(stage))?;
        match link {
            Some(link) => println!(rt; "; link {}", Bound(link))?,
            None => println!(rt; "; no link")?,
        }
        Ok(())
    }

    fn drop_link(&mut self) -> anyhow::Result<()> {
        self.converter.drop_link();
        print!(self.rt; "  drop")?;
        self.tell_link()
    }

    // Ends a line with where the link stands.
    fn tell_link(&self) -> anyhow::Result<()> {
        println!(self.rt; "; link: {}", Standing(self.converter.state()))?;
        Ok(())
    }
}
