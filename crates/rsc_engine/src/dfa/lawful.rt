//! The laws of steps and runs that the proof of a search rests on.
ghost use Rattle.rsc_engine.specs.LawfulLayout.{Lawful};

/// The laws of the libraries below, in one.
pub(crate) fn steps_are_lawful()
    ensures { Lawful }
{
    rsc_nfa::laws::a_step_is_local();
    rsc_nfa::laws::a_step_is_kept();
    rsc_nfa::laws::where_a_step_leads();
    rsc_nfa::laws::runs_grow();
    rsc_look::laws::ascii_neighbours_suffice();
}
