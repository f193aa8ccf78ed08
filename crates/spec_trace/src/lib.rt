//! What the trace of a run's calls means: moments and waits, sockets with their kinds, how a run begins, turns and ends, what the guests' frames hold, and whose
//! addresses are known. Definitions alone, in `specs/`; the laws stand on them, and no call is public.
#![tactic(auto)]
