// The search of one component, from its first assignment on (RULES 6).
ghost use Rattle.search.specs.Component.{Posed, Searched};

use crate::branch::Problem;
use crate::incumbent::Walk;
use crate::limits::{Best, Limits, Progress};
use first_assignment::{first_assignment, has_fixed};
use places::Local;
use rows::Table;

// Searches the places of a component from its first assignment on, answers the best masks found, and moves `progress` on by the steps taken. `end`
// is the cost at which the search ends, if there is one (RULES 19).
pub fn search_component(
    local: &Local,
    limits: Limits,
    end: Option<u64>,
    progress: &mut Progress,
) -> Best
    requires { Posed local.now.fixed.now limits progress.old }
    ensures { Searched local.now.lists.now local.now.fixed.now limits end progress.old progress.new result }
{
    let problem = Problem {
        local: *local,
        table: Table::new(limits.weight),
        limits,
        end,
    };
    let mut partial = [0u8; 512];
    let cost = first_assignment(
        local,
        &problem.table,
        limits.masks,
        &mut partial[..local.fixed.len()],
    );
    if end == Some(cost) {
        return Best {
            masks: partial,
            cost,
        };
    }
    let mut walk = Walk {
        partial,
        incumbent: partial,
        cost,
        stopped: progress.stopped,
        ended: None,
    };
    let used = if has_fixed(local.fixed) {
        limits.masks as usize
    } else {
        0
    };
    let rest = problem.search_place(&mut walk, 0, 0, used, progress.left);
    progress.left = walk.ended.unwrap_or(rest);
    progress.stopped = walk.stopped;
    Best {
        masks: walk.incumbent,
        cost: walk.cost,
    }
}
