//! What follows from the definitions, each law as the contract of a function that does nothing.

ghost use Rattle.std.specs.Prelude.{List, ℕ};
ghost use Rattle.lgp_stream.specs.Transcript.{IsReportedByTranscript};
ghost use Rattle.lgp_script.specs.Script.{script_language};
ghost use Rattle.lgp_script.specs.LabState.{opening_state};
ghost use Rattle.lgp_call.specs.Session.{after_all, opening_session};
ghost use Rattle.lgp_call.specs.Telling.{AreSayableDeeds, Deed, after_deeds};

/// Whatever lines a session is given, with line feeds among their bytes or without: the laboratory is where the script language
/// puts it for the session's transcript, run as a script from its beginning.
#[tactic(auto, using(crate::proofs::SessionLaws::reported_by_session))]
pub fn transcript_of_a_session_is_the_script()
    ensures { (lines : List (List ℕ)) → IsReportedByTranscript script_language opening_state
        (after_all opening_session lines).seat.recorded }
{}

/// The same for all that can be done with a session: lines that its monitor is asked, and what its desk is told and shows, where a script can
/// say all that the monitor is handed for it. Of a tape too long for a line the transcript has the name alone.
#[tactic(auto, using(crate::proofs::SessionLaws::reported_by_deeds))]
pub fn transcript_of_a_desk_is_the_script()
    ensures { (deeds : List Deed) → AreSayableDeeds opening_session deeds
        → IsReportedByTranscript script_language opening_state
        (after_deeds opening_session deeds).seat.recorded }
{}
