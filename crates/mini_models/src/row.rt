//! A worked row. The law is proved by computation, and does nothing when it runs.

ghost use Rattle.std.specs.Prelude.{◌≡◌};
ghost use Rattle.step_data.specs.declared.outcome.End.TheVariants.{Reached};
ghost use Rattle.lockstep_model.specs.Lockstep.{lockstep};
ghost use Rattle.lockstep_model.specs.Works.{events_of, cycles_in, tries_in, attempts_in};
ghost use Rattle.mini_models.specs.Row.{row_system, row_events};
ghost use Rattle.mini_models.specs.Ramp.{ramp_system, ramp_events};

/// One quantity that is 2.5 gives a point before the first delta, the change of DOMAIN, and a point every 5 ns up to the
/// stop time; these are two cycles and two attempts.
pub fn a_literal_runs_to_its_stop_time()
    ensures events { events_of (lockstep row_system).works ≡ row_events }
    ensures end { (lockstep row_system).end ≡ Reached 10000 }
    ensures cycles { cycles_in (lockstep row_system).works ≡ 2 }
    ensures tries { tries_in (lockstep row_system).works ≡ 2 }
{}

/// A quantity that rises crosses its threshold between two attempts: the crossing is located at the first tick at which
/// it is above the level, by 17 probes beside 5 attempts, and the tip stays behind it.
pub fn a_crossing_is_located()
    ensures events { events_of (lockstep ramp_system).works ≡ ramp_events }
    ensures end { (lockstep ramp_system).end ≡ Reached 800000 }
    ensures tries { tries_in (lockstep ramp_system).works ≡ 22 }
    ensures attempts { attempts_in (lockstep ramp_system).works ≡ 5 }
{}
