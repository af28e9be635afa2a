//! One scenario has one output. The law is only about its definitions, and its function does nothing.
ghost use Rattle.gossip_sim.specs.OneOutput.{AlikePlansWriteTheSame, AlikeScenariosWriteTheSame};

/// Two runs that both report write the same text if their scenarios differ at most in `workers` and `capacity`
/// (`scenarios`). The same holds if their plans differ at most in these (`plans`). So no schedule of threads changes a byte.
/// The law does not promise that a run reports.
pub fn two_runs_write_the_same()
    ensures plans { AlikePlansWriteTheSame }
    ensures scenarios { AlikeScenariosWriteTheSame }
{}
