ghost use Rattle.std.specs.Prelude.{◌≡◌, ◌≢◌, ℕ, ◌⊎◌, List, IfSome};
ghost use Rattle.agglo_model.specs.Count.{Rose};
ghost use Rattle.command_words.specs.Jobs.{task_of};
ghost use Rattle.command_words.specs.Texts.{texts};
ghost use Rattle.command_words.specs.Words.{Task, Basins, Segment, Make, Trial, Show, SegmentSettings, MakeSettings, TrialSettings, Spells, AreNoSettings, MayBeSettings, AreSomeSizes};
ghost use Rattle.refusals.specs.Refusal.{status_of};
ghost use Rattle.agglo_program.specs.Flaws.{HasInput, MayHideFlaw, MayEndWith};
ghost use Rattle.agglo_program.specs.Run.{HasNoOutput, TaskEnds, RunEnds, Told, Finishes, Refuses, NamesAFlawedInput, NamesAGoodInput, WritesNothing, IsStatus};
ghost use Rattle.agglo_program.specs.Headline.{IsAgglomerated, IsMade, IsTried};

use crate::input::{cut, read_cut_volume, read_tree_file, read_volume_file};
use crate::note::{basins_note, make_note};
use crate::output::{Names, write_basins, write_made, write_segmentation};
use crate::shown::tree_note;
use agglo_model::laws::bounded_labels;
use agglo_model::laws_of_merging::greedy_merges_are_lawful;
use command_words::laws::{one_task, sizes_are_some};
use command_words::{Job, read_words};
use mean_fraction::Threshold;
use merge_tree::Tree;
use refusals::{Refusal, tell};
use seg_base::Dims;
use seg_io::{Desk, Port, put_all};
use segment_run::{Answer, Gate, Settings, basins_by_threads, report_text, segment};
use std::alloc::Global;
use std::thread::Threads;
use volume_file::generate;

/// Runs the program on the words after its name, and answers the status that it ends with. The gate is told of each
/// node of a segmentation once before it is merged.
pub fn agglo<R: Threads + Sync, D: Desk, G: Gate>(
    rt: &R,
    alloc: Global,
    words: &[String],
    desk: &mut D,
    gate: &G,
) -> u8
    requires { HasNoOutput (D.state desk.old) }
    ensures status { IsStatus result }

    // One whole volume was read, and exactly the two files of greedy agglomeration of its basins were written,
    // whatever the chunks and the workers.
    ensures segmented { result ≡ 0 → (settings : SegmentSettings) → Spells (texts words.now) (Segment settings)
        → IsAgglomerated settings (D.state desk.old) (D.state desk.new) }

    // The file of the generated volume was written, and its note.
    ensures made { result ≡ 0 → (settings : MakeSettings) → Spells (texts words.now) (Make settings)
        → IsMade settings (D.state desk.old) (D.state desk.new) }

    // The report on the segmentation of the generated volume was printed, and no file was written.
    ensures tried { result ≡ 0 → (settings : TrialSettings) → Spells (texts words.now) (Trial settings)
        → IsTried settings (D.state desk.old) (D.state desk.new) }

    // The answer was written, whole and nothing else.
    ensures done { result ≡ 0 → Finishes (texts words.now) (D.state desk.old) (D.state desk.new) }

    // Every refusal has its cause, and its line was printed. Want of memory is free, but not for words that are
    // refused at once: there is none, or the first is no command, or another is bare.
    ensures refused { result ≢ 0 → Refuses (texts words.now) result (D.state desk.old) (D.state desk.new) }
    ensures statuses_of_command { (task : Task) → Spells (texts words.now) task → MayEndWith task result }
    ensures refused_words_are_no_settings { result ≡ 2 → AreNoSettings (texts words.now) }
    ensures no_settings_are_refused { AreNoSettings (texts words.now)
        → (result ≡ 2) ⊎ ((result ≡ 1) × MayBeSettings (texts words.now)) }
    ensures words_are_refused_at_once { ¬ (MayBeSettings (texts words.now)) → result ≡ 2 }
    ensures input_fault_was_counted { result ≡ 5
        → Rose (D.state desk.old).input_faults (D.state desk.new).input_faults }
    ensures output_fault_was_counted { result ≡ 6
        → Rose (D.state desk.old).output_faults (D.state desk.new).output_faults }

    // A flaw that is told, of a file by the desk and of leaves by the words, is found, but for want of memory and, in
    // a file, faults of the input.
    ensures flaws_are_found { (status : ℕ) → (named : NamesAFlawedInput (texts words.now) status (D.state desk.old))
        → (result ≡ status) ⊎ MayHideFlaw named.task result }

    // With settings, an input that has no flaw, and no fault, only want of memory can come.
    ensures good_input_is_done { NamesAGoodInput (texts words.now) (D.state desk.old)
        → ¬ (Rose (D.state desk.old).input_faults (D.state desk.new).input_faults)
        → ¬ (Rose (D.state desk.old).output_faults (D.state desk.new).output_faults)
        → (result ≡ 0) ⊎ (result ≡ 1) }

    // No port is opened or written before the answer is known, but for the line of a refusal.
    ensures nothing_is_written_early { result ≢ 0 → result ≢ 6 → WritesNothing (D.state desk.old) (D.state desk.new) }

    // A miss comes only where the words are settings, and no file has the name of their input.
    ensures only_the_input_is_missed { ((task : Task) → Spells (texts words.now) task
        → HasInput (D.state desk.old) task)
        → IfSome (D.state desk.old).files (λ _. (D.state desk.new).misses ≡ (D.state desk.old).misses) }
{
    one_task();
    match run(rt, alloc, words, desk, gate) {
        Ok(()) => 0,
        Err(refusal) => refuse(desk, &refusal),
    }
}

/// Prints the line of a refusal, and answers its status. Where the line cannot be printed, the status still tells.
pub fn refuse<D: Desk>(desk: &mut D, refusal: &Refusal) -> u8
    ensures status { result ≡ status_of refusal.now }
    ensures told { Told refusal.now (D.state desk.old) (D.state desk.new) }
{
    let _printed = tell(desk, refusal);
    refusal.status()
}

/// The run itself: the words, and what they ask for.
fn run<R: Threads + Sync, D: Desk, G: Gate>(
    rt: &R,
    alloc: Global,
    words: &[String],
    desk: &mut D,
    gate: &G,
) -> Result<(), Refusal>
    requires { HasNoOutput (D.state desk.old) }
    ensures { RunEnds (texts words.now) result (D.state desk.old) (D.state desk.new) }
{
    sizes_are_some();
    match read_words(alloc, words) {
        Ok(job) => run_job(rt, alloc, desk, &job, gate),
        Err(fault) => Err(Refusal::from(fault)),
    }
}

/// How a volume is cut into leaves, and how it is segmented.
#[derive(Clone, Copy)]
struct Plan {
    chunk: [u32; 3],
    settings: Settings,
}

impl Plan {
    fn new(chunk: [u32; 3], low: u8, threshold: Threshold, workers: u32) -> Plan
        ensures { result ≡ record {
          chunk = chunk;
          settings = record { low = low; threshold = threshold; workers = workers };
        } }
    {
        Plan {
            chunk,
            settings: Settings {
                low,
                threshold,
                workers,
            },
        }
    }
}

/// The run of one job.
fn run_job<R: Threads + Sync, D: Desk, G: Gate>(
    rt: &R,
    alloc: Global,
    desk: &mut D,
    job: &Job,
    gate: &G,
) -> Result<(), Refusal>
    requires fresh { HasNoOutput (D.state desk.old) }
    requires sizes { (settings : SegmentSettings) → task_of job.now ≡ Segment settings → AreSomeSizes settings.chunk }
    requires trial_sizes { (settings : TrialSettings) → task_of job.now ≡ Trial settings → AreSomeSizes settings.chunk }
    ensures { TaskEnds (task_of job.now) result (D.state desk.old) (D.state desk.new) }
{
    match job {
        Job::Basins {
            volume,
            labels,
            low,
        } => run_basins(rt, alloc, desk, volume.as_str(), labels.as_str(), *low),
        Job::Segment {
            volume,
            labels,
            tree,
            low,
            threshold,
            chunk,
            workers,
        } => {
            let names = Names {
                labels: labels.as_str(),
                tree: tree.as_str(),
            };
            let plan = Plan::new(*chunk, *low, *threshold, *workers);
            run_segment(rt, alloc, desk, volume.as_str(), names, &plan, gate)
        }
        Job::Make {
            volume,
            start,
            dims,
        } => run_make(alloc, desk, volume.as_str(), *start, dims),
        Job::Trial {
            start,
            dims,
            low,
            threshold,
            chunk,
            workers,
        } => {
            let plan = Plan::new(*chunk, *low, *threshold, *workers);
            run_trial(rt, alloc, desk, *start, dims, &plan, gate)
        }
        Job::Show { tree } => run_show(alloc, desk, tree.as_str()),
    }
}

/// Reads the volume, finds its basins, and writes their labels.
fn run_basins<R: Threads + Sync, D: Desk>(
    rt: &R,
    alloc: Global,
    desk: &mut D,
    volume: &str,
    labels: &str,
    low: u8,
) -> Result<(), Refusal>
    requires { HasNoOutput (D.state desk.old) }
    ensures { let task = Basins (record { volume = volume.now; labels = labels.now; low = low }) in
        TaskEnds task result (D.state desk.old) (D.state desk.new) }
{
    let volume = read_volume_file(alloc, desk, volume)?;
    let basins = basins_by_threads(rt, alloc, &volume, low)?;
    let note = basins_note(alloc, &basins)?;
    write_basins(desk, labels, &basins, note.as_str()).map_err(|_| Refusal::Output)
}

/// Reads the volume, segments it, and writes the labels, the merge tree and the report.
fn run_segment<R: Threads + Sync, D: Desk, G: Gate>(
    rt: &R,
    alloc: Global,
    desk: &mut D,
    volume: &str,
    names: Names<'_>,
    plan: &Plan,
    gate: &G,
) -> Result<(), Refusal>
    requires fresh { HasNoOutput (D.state desk.old) }
    requires sizes { AreSomeSizes plan.now.chunk }
    ensures { let task = Segment (record {
      volume = volume.now;
      labels = names.entry.labels.now;
      tree = names.entry.tree.now;
      low = plan.now.settings.low;
      threshold = plan.now.settings.threshold;
      chunk = plan.now.chunk;
      workers = plan.now.settings.workers;
    }) in
        TaskEnds task result (D.state desk.old) (D.state desk.new) }
{
    bounded_labels();
    greedy_merges_are_lawful();
    let read = read_cut_volume(alloc, desk, volume, plan.chunk)?;
    let answer = segment(rt, alloc, &read.volume, &read.cutting, &plan.settings, gate)?;
    let report = report_text(alloc, &answer)?;
    let Answer { labels, merges, .. } = answer;
    let tree = Tree::of(read.volume.dims(), plan.settings.threshold, merges);
    write_segmentation(desk, names, &labels, &tree, report.as_str()).map_err(|_| Refusal::Output)
}

/// Writes the file of the volume of these axes that is generated from its start number.
fn run_make<D: Desk>(
    alloc: Global,
    desk: &mut D,
    name: &str,
    start: u32,
    dims: &Dims,
) -> Result<(), Refusal>
    requires { HasNoOutput (D.state desk.old) }
    ensures { let task = Make (record { volume = name.now; start = start; axes = dims.now }) in
        TaskEnds task result (D.state desk.old) (D.state desk.new) }
{
    let note = make_note(alloc, dims)?;
    write_made(desk, name, start, dims, note.as_str()).map_err(|_| Refusal::Output)
}

/// Generates the volume of these axes from its start number, segments it, and prints the report.
fn run_trial<R: Threads + Sync, D: Desk, G: Gate>(
    rt: &R,
    alloc: Global,
    desk: &mut D,
    start: u32,
    dims: &Dims,
    plan: &Plan,
    gate: &G,
) -> Result<(), Refusal>
    requires sizes { AreSomeSizes plan.now.chunk }
    ensures { let task = Trial (record {
      start = start;
      axes = dims.now;
      low = plan.now.settings.low;
      threshold = plan.now.settings.threshold;
      chunk = plan.now.chunk;
      workers = plan.now.settings.workers;
    }) in
        TaskEnds task result (D.state desk.old) (D.state desk.new) }
{
    let cutting = cut(dims, plan.chunk)?;
    let volume = generate(alloc, start, dims)?;
    let answer = segment(rt, alloc, &volume, &cutting, &plan.settings, gate)?;
    let report = report_text(alloc, &answer)?;
    put_all(desk, Port::Note, report.as_bytes()).map_err(|_| Refusal::Output)
}

/// Reads the merge tree, and shows it.
fn run_show<D: Desk>(alloc: Global, desk: &mut D, tree: &str) -> Result<(), Refusal>
    ensures { TaskEnds (Show tree.now) result (D.state desk.old) (D.state desk.new) }
{
    let tree = read_tree_file(alloc, desk, tree)?;
    let note = tree_note(alloc, &tree)?;
    put_all(desk, Port::Note, note.as_bytes()).map_err(|_| Refusal::Output)
}
