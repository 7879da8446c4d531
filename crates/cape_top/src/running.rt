// Running a machine to its end, and the report about it.
ghost use Rattle.std.specs.Prelude.{◌≡◌, ◌≤◌, ◌⊎◌, is_ok, true, None};
ghost use Rattle.cape_io.specs.Devices.{Rose};
ghost use Rattle.cape_io.specs.Views.{Writes, devices, views};
ghost use Rattle.cam_chain.specs.ChainValue.{slices_of};
ghost use Rattle.rvv_meaning.specs.declared.Mode.TheVariants.{Running};
ghost use Rattle.report_texts.specs.StateTexts.{state_text};
ghost use Rattle.run_texts.specs.CountTexts.{counts_text};
ghost use Rattle.run_texts.specs.WorkTexts.{work_text};
ghost use Rattle.command_words.specs.Grammar.{most_steps};
ghost use Rattle.cape_top.specs.Calls.{SinkRose};
ghost use Rattle.cape_top.specs.Statuses.{IsOfRun, IsFault};
ghost use Rattle.cape_top.specs.Endings.{status_for as status_of_answer, text_if};
ghost use Rattle.cape_top.specs.Runs.{MachineEnds, MachineReads, end_of, shown_of};

use crate::ending::Status;
use cape_io::{Failed, Sink, Source};
use command_words::RunOptions;
use machine::{DeviceFault, Machine, Step};
use report_texts::{report_line, write_line, write_state};
use run_texts::{counts_lines, write_work};

// The status for an answer of the machine.
pub(crate) fn status_for(answer: Step) -> Status
    ensures { result ≡ status_of_answer answer }
{
    match answer {
        Step::Ran => Status::StepLimit,
        Step::Exited(code) => Status::Exited(code),
        Step::Trapped(_) => Status::Trapped,
    }
}

// Writes the text about the state, if it is asked for.
fn write_state_if<E: Sink>(machine: &Machine, wanted: bool, err: &mut E) -> Result<(), Failed>
    ensures { Writes E.Sink (text_if wanted (state_text machine.now.core)) (is_ok result) err.old err.new }
{
    if wanted {
        write_state(machine, err)
    } else {
        Ok(())
    }
}

// Writes what the run took, if it is asked for.
fn write_counts_if<E: Sink>(machine: &Machine, wanted: bool, err: &mut E) -> Result<(), Failed>
    ensures { Writes E.Sink (text_if wanted (counts_text machine.now.core.csrs.retired machine.now.chain.counts)) (is_ok result) err.old err.new }
{
    if wanted {
        write_line(&counts_lines(machine.retired(), machine.counts()), err)
    } else {
        Ok(())
    }
}

// Writes the work rows and the tags of the slices, if they are asked for.
fn write_work_if<E: Sink>(machine: &Machine, wanted: bool, err: &mut E) -> Result<(), Failed>
    ensures { Writes E.Sink (text_if wanted (work_text (slices_of machine.now.chain))) (is_ok result) err.old err.new }
{
    if wanted {
        write_work(machine.chain(), err)
    } else {
        Ok(())
    }
}

// Writes what is asked for.
fn write_shown<E: Sink>(machine: &Machine, options: RunOptions, err: &mut E) -> Result<(), Failed>
    ensures { Writes E.Sink (shown_of options machine.now) (is_ok result) err.old err.new }
{
    write_state_if(machine, options.state, err)?;
    write_counts_if(machine, options.counts, err)?;
    write_work_if(machine, options.work, err)
}

// Writes the report line, and what is asked for.
fn write_end<E: Sink>(
    machine: &Machine,
    answer: Step,
    options: RunOptions,
    err: &mut E,
) -> Result<(), Failed>
    ensures { Writes E.Sink (end_of answer options machine.now) (is_ok result) err.old err.new }
{
    write_line(&report_line(answer, machine.retired()), err)?;
    write_shown(machine, options, err)
}

// Runs the machine to its end, writes the report, and keeps the machine.
pub(crate) fn run_machine<S: Source, O: Sink, E: Sink>(
    machine: Machine,
    options: RunOptions,
    input: &mut S,
    out: &mut O,
    err: &mut E,
    kept: &mut Option<Machine>,
) -> Status
    requires live { machine.live ≡ true }
    requires running { machine.core.mode ≡ Running }
    requires few { options.steps ≤ most_steps }
    requires fresh { machine.core.csrs.retired ≡ 0 }
    requires none { kept.old ≡ None }
    ensures ends { MachineEnds machine options (devices S.Source O.Sink E.Sink input.old input.new out.old out.new err.old err.new) result kept.new }
    ensures only { IsOfRun result ⊎ IsFault result }
    ensures kept { IsOfRun result ⊎ (kept.new ≡ None) }
    ensures read { result ≡ Status.ReadFault → Rose (S.faults input.old) (S.faults input.new) }
    ensures reads { result ≡ Status.ReadFault → MachineReads machine options (views S.Source O.Sink E.Sink input.old out.old err.old) }
    ensures write { result ≡ Status.WriteFault → SinkRose (devices S.Source O.Sink E.Sink input.old input.new out.old out.new err.old err.new) }
{
    let mut machine = machine;
    match machine.run(options.steps, input, out, err, false) {
        Err(DeviceFault::ReadFault) => Status::ReadFault,
        Err(DeviceFault::WriteFault) => Status::WriteFault,
        Ok(answer) => match write_end(&machine, answer, options, err) {
            Ok(()) => {
                *kept = Some(machine);
                status_for(answer)
            }
            Err(_) => Status::WriteFault,
        },
    }
}
