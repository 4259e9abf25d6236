// Runs a job: makes its stages, or opens the profiles that it names, prints what they tell, and does what it asks for.
use crate::job::Job;
use crate::profiles::{files_of, opened};
use crate::steps::Step;
use crate::work::Work;
use anyhow::Context;
use stage::{Chain, Rated, Stage};

// What a stage tells of itself.
fn print_stage<S: Stage>(rt: &HostRuntime, name: &str, stage: &S) -> anyhow::Result<()> {
    let ins = stage.ins().number();
    let outs = stage.outs().number();
    let steepness = stage.steepness();
    let error = stage.error();
    println!(rt;
        "  {name}: {ins} to {outs} channels, steepness {steepness} grains a count, error {error} grains"
    )?;
    Ok(())
}

// Prints the stages of a job, and what they tell together where there is more than one, and runs what it asks for.
fn run_stages(rt: &HostRuntime, job: &Job) -> anyhow::Result<()> {
    // Rated one by one, so that each works out its figures once: the chain's are made of these.
    let mut steps = Vec::new(rt.alloc());
    for stage in job.stages.iter() {
        let step = Rated::new(Step::of(stage));
        print_stage(rt, step.stage().name(), &step)?;
        steps.push(step)?;
    }
    let chain = Chain::new(steps.as_slice()).context(
        "a job has one stage or more: matrix, curves, lattice or profile",
    )?;
    let tasks = job.tasks.as_slice();
    let mut work = Work::new(rt, chain, tasks)?;
    if steps.len() > 1 {
        print_stage(rt, "joined", work.stage())?;
    }
    work.run(tasks)
}

// Opens the profiles of a job, prints what they tell together, and runs what the job asks for.
fn run_profiles(rt: &HostRuntime, job: &Job, folder: &str) -> anyhow::Result<()> {
    let files = files_of(rt, job.profiles.as_slice(), folder)?;
    let chain = opened(rt, job.profiles.as_slice(), files.as_slice())?;
    let tasks = job.tasks.as_slice();
    let mut work = Work::new(rt, chain, tasks)?;
    print_stage(rt, "profiles", work.stage())?;
    work.run(tasks)
}

// Runs a job, whose profiles lie in a folder.
pub(crate) fn run(rt: &HostRuntime, job: &Job, folder: &str) -> anyhow::Result<()> {
    if job.profiles.is_empty() {
        run_stages(rt, job)
    } else {
        run_profiles(rt, job, folder)
    }
}
