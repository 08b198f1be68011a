//! All jobs of a program, one behind the other.

ghost use Rattle.std.specs.Prelude.{◌≡◌, ◌<◌, ◌^◌, IfOk, OnOk, length, map};
ghost use Rattle.job_places.specs.Places.{program_job_places, model_of_job_place};
ghost use Rattle.src_model.specs.Written.{model_of_program};
ghost use Rattle.src_trees.specs.Jobs.{model_of_job, models_of_jobs};
ghost use Rattle.explain_command.specs.Explained.{AreJobTexts, IsJobText};
ghost use Rattle.explain_command.specs.Inner.Telling.{Adds, netlist_of, stock_of};

use crate::covering::add_cover;
use crate::heading::add_head;
use crate::subject::Subject;
use form_model::Job;
use job_places::{JobPlace, places_of};
use rec_bits::NoMemory;
use src_model::Program;
use std::alloc::Global;

// What is told of a job of this number.
fn add_job(
    alloc: Global,
    text: &mut Vec<u8>,
    subject: &Subject<'_>,
    number: u32,
    place: &JobPlace<'_>,
    job: &Job,
) -> Result<(), NoMemory>
    ensures { OnOk result (Adds (IsJobText (netlist_of subject.now) (stock_of subject.now) subject.now.src.now
        number (model_of_job_place place.now) (model_of_job job.now)) text.old.items text.new.items) }
{
    add_head(text, subject.checked, subject.src, number, place, job)?;
    add_cover(alloc, text, subject, job)
}

// What is told of jobs, each with its place.
fn add_jobs(
    alloc: Global,
    text: &mut Vec<u8>,
    subject: &Subject<'_>,
    places: &[JobPlace<'_>],
    jobs: &[Job],
) -> Result<(), NoMemory>
    requires same { length places.now ≡ length jobs.now }
    requires few { length jobs.now < 2 ^ 32 }
    ensures { OnOk result (Adds (AreJobTexts (netlist_of subject.now) (stock_of subject.now) subject.now.src.now
        0 (map model_of_job_place places.now) (models_of_jobs jobs.now)) text.old.items text.new.items) }
{
    for (number, job) in jobs.iter().enumerate() {
        add_job(alloc, text, subject, number as u32, &places[number], job)?;
    }
    Ok(())
}

/// What is told of the jobs of a program.
pub(crate) fn job_texts(
    alloc: Global,
    subject: &Subject<'_>,
    program: &Program,
    jobs: &[Job],
) -> Result<Vec<u8>, NoMemory>
    requires same { length (program_job_places (model_of_program program.now)) ≡ length jobs.now }
    requires few { length jobs.now < 2 ^ 32 }
    ensures { IfOk result (λ text. AreJobTexts (netlist_of subject.now) (stock_of subject.now) subject.now.src.now
        0 (program_job_places (model_of_program program.now)) (models_of_jobs jobs.now) text.items) }
{
    let places = places_of(alloc, program)?;
    let mut text = Vec::new(alloc);
    add_jobs(alloc, &mut text, subject, &places, jobs)?;
    Ok(text)
}
