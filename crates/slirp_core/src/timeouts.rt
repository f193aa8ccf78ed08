// How long a wait may last.
ghost use Rattle.std.specs.Prelude.{◌≡◌, ℕ, List, None, true};
ghost use Rattle.slirp_settings.specs.Addresses.{Config};
ghost use Rattle.ipv4_head.specs.Sets.{PartSet};
ghost use Rattle.slirp_core.specs.Fragments.{IsHeld};
ghost use Rattle.slirp_core.specs.Pumps.{question_left, time_left};
ghost use Rattle.slirp_core.specs.Timeouts.{IsFileTime, IsFlowTime, IsPartTime, SuitsFlows};
ghost use Rattle.sim_flows.specs.Core.{CoreHolds};
ghost use Rattle.world_face.specs.Journal.{Entry};

use crate::network::Slirp;
use rules_dns::QUESTION_LIFE;
use rules_udp::IDLE_LIFE;

impl Slirp {
    // How long it is until the idle life of the longest unused socket is over.
    pub(crate) fn time_of_sockets(&self) -> Option<u64>
        ensures { result ≡ time_left self.now.moment self.now.associations }
    {
        let oldest = self.associations.oldest()?;
        Some(IDLE_LIFE.saturating_sub(self.moment.saturating_sub(oldest.used)))
    }

    // How long it is until the longest unused question has waited for long enough.
    pub(crate) fn time_of_questions(&self) -> Option<u64>
        ensures { result ≡ question_left self.now.moment self.now.questions }
    {
        let oldest = self.questions.oldest()?;
        Some(QUESTION_LIFE.saturating_sub(self.moment.saturating_sub(oldest.used)))
    }

    // How long it is until the first fragments are dropped.
    pub(crate) fn time_of_fragments(&self) -> Option<u64>
        ensures { (held : List PartSet) → IsHeld self.now.fragments held → IsPartTime self.now.moment held result }
    {
        let due = self.reasm.next_due()?;
        Some(due.saturating_sub(self.moment))
    }

    // How long it is until a packet of a file is due to go again. What is due already waits for the link, and isn't counted.
    pub(crate) fn time_of_files(&self) -> Option<u64>
        ensures { IsFileTime self.now.moment self.now.transfers result }
    {
        let due = self.files.next_due(self.moment)?;
        Some(due.saturating_sub(self.moment))
    }

    // How long it is until a flow is to be told the time. What is due already waits where the link is blocked, and isn't counted.
    pub(crate) fn time_of_flows(&self, blocked: bool) -> Option<u64>
        ensures time { IsFlowTime blocked self.now.moment self.now.flows.flows.slots result }
        // By the trace, a wait that ends with it suits the flows.
        ensures suits { (config : Config) (before : ℕ) (past : List Entry) → CoreHolds config before true None self.now.flows.flows past
            → SuitsFlows config self.now.moment blocked self.now.flows.flows.slots past result }
    {
        let due = self.flows.due()?;
        if blocked && due <= self.moment {
            let later = self.flows.due_after(self.moment)?;
            return Some(later - self.moment);
        }
        Some(due.saturating_sub(self.moment))
    }
}
