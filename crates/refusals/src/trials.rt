//! What is tried of a case.

use crate::cases::name_of;
use fixtures::Team;
use std::fmt;

/// What is called.
#[derive(Clone, Copy, Debug)]
pub(crate) enum Call {
    Step,
    RunList,
    Run,
    Compare,
}

impl Call {
    pub(crate) const ALL: [Call; 4] = [Call::Step, Call::RunList, Call::Run, Call::Compare];

    pub(crate) fn digit(self) -> u8 {
        match self {
            Call::Step => b'0',
            Call::RunList => b'1',
            Call::Run => b'2',
            Call::Compare => b'3',
        }
    }

    fn name(self) -> &'static str {
        match self {
            Call::Step => "step",
            Call::RunList => "run_list",
            Call::Run => "run",
            Call::Compare => "compare",
        }
    }
}

/// A call of a case, by its place, with a team of workers.
#[derive(Clone, Copy, Debug)]
pub(crate) struct Trial {
    pub(crate) call: Call,
    pub(crate) place: usize,
    pub(crate) team: Team,
}

impl fmt::Display for Trial {
    fn fmt<W: fmt::Write>(&self, f: &mut fmt::Formatter<W>) -> fmt::Result {
        let (call, case) = (self.call.name(), name_of(self.place));
        write!(f, "{call}, {case}, workers: {}", self.team.workers())
    }
}
