//! How a statement ends that may have changed tables. The reply is made before the log is given up,
//! so that the changes are taken back where there is no memory for it.

ghost use Rattle.std.specs.Prelude.{◌≡◌, ◌≤◌, length, IfOk, OnOk, OnErr};
ghost use Rattle.reply_text.specs.Texts.{area_text};
ghost use Rattle.run_expressions.specs.Content.{IsBackAt};
ghost use Rattle.psm_effects.specs.Conclusions.{IsStopped};

use atomic_undo::Mark;
use reply_text::{Reply, area_reply, spent_reply};
use run_choices::Raise;
use run_expressions::{Stop, World};
use sql_values::NoMemory;
use std::alloc::Global;

/// A reply, where there was memory for it; else all changes after the mark are taken back.
pub(crate) fn conclude(
    reply: Result<Reply, NoMemory>,
    mark: Mark,
    world: &mut World,
) -> Result<Reply, NoMemory>
    requires { mark ≤ length world.old.book.entries }
    ensures same { result ≡ reply }
    ensures ok { OnOk result (world.new ≡ world.old) }
    ensures err { OnErr result (IsBackAt mark world.old world.new) }
{
    if let Err(_) = &reply {
        world.roll_back(mark);
    }
    reply
}

// The reply of a statement that raises.
fn raised_reply(alloc: Global, raise: &Raise) -> Result<Reply, NoMemory>
    ensures { IfOk result (λ r. r ≡ area_text raise.now) }
{
    let area = raise.area()?;
    area_reply(alloc, &area)
}

/// The reply of a statement that stops: what it raised; or that no turn was left, and its changes
/// are taken back.
pub(crate) fn stop_reply(stop: Stop, mark: Mark, world: &mut World) -> Result<Reply, NoMemory>
    requires { mark ≤ length world.old.book.entries }
    ensures { IsStopped stop mark world.old world.new result }
{
    match stop {
        Stop::Raised(raise) => conclude(raised_reply(world.allocator(), &raise), mark, world),
        Stop::Spent => {
            world.roll_back(mark);
            spent_reply(world.allocator())
        }
        Stop::NoMemory => {
            world.roll_back(mark);
            Err(NoMemory)
        }
    }
}
