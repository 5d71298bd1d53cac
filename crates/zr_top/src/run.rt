//! `run`: the whole program over the sources and sinks that it is given.

ghost use Rattle.std.specs.Prelude.{◌≡◌, ◌<◌, ◌≤◌, ◌⊎◌, true, false, is_some, map, Some, IfSome, IsTrue};
ghost use Rattle.std.specs.String.{string_bytes};
ghost use Rattle.zr_key.specs.Laws.{IsReading, ReadingKeepsKeys, ReadsEach};
ghost use Rattle.zr_tree.specs.Laws.{DistancesAreOfShortestWalks, RecordsMakeGraphs};
ghost use Rattle.zr_outside.specs.Counts.{Rose};
ghost use Rattle.zr_outside.specs.Piece.{IsReadToEnd};
ghost use Rattle.zr_guarantee.specs.Refines.{PhasesDeliver, PhasesRefine};
ghost use Rattle.zr_guarantee.specs.Scripts.{IsRefined, TellsClients, TellsTokens};
ghost use Rattle.zr_law_samples.specs.Keys.{AnsweringIsCovering, AnsweringIsMeeting, AskingIsMeeting};
ghost use Rattle.zr_law_samples.specs.Runs.{RestIsQuiet};
ghost use Rattle.zr_law_sent.specs.Passing.{PassableMaySend};
ghost use Rattle.zr_law_carried.specs.Carriable.{ReachedIsCarriable};
ghost use Rattle.zr_law_carried.specs.Lines.{LineActsFit};
ghost use Rattle.zr_law_declared.specs.Logs.{SettledLogsAreKnown};
ghost use Rattle.zr_law_declared.specs.Rows.{SettledRowsAreDeclared};
ghost use Rattle.zr_law_declared.specs.Sets.{SettledSetsAreDeclared};
ghost use Rattle.zr_law_replies.specs.Answers.{AnswersAlwaysHold};
ghost use Rattle.zr_law_fans.specs.Scripts.{FansArePlain, FansEnd};
ghost use Rattle.zr_law_histories.specs.Histories.{RunningRoutersAreAWorld};
ghost use Rattle.zr_law_histories.specs.Maps.{ReplayedMapsAreHeard};
ghost use Rattle.zr_law_histories.specs.Packing.{QueuesArePacked};
ghost use Rattle.zr_law_keys.specs.Laws.{MatchingIsOfCharacters, MeetingIsOfCharacters};
ghost use Rattle.zr_law_names.specs.Alike.{StepsAreAlike};
ghost use Rattle.zr_law_names.specs.Names.{NamesChangeNothing};
ghost use Rattle.zr_law_names.specs.Trees.{TreesChangeNothing};
ghost use Rattle.zr_law_numbers.specs.Calls.{NoEventOfAnyWorldIsRefused, NoEventWithinAFanIsRefused};
ghost use Rattle.zr_law_numbers.specs.Numbers.{NumbersAlwaysHold};
ghost use Rattle.zr_law_numbers.specs.Taken.{AlwaysTaken};
ghost use Rattle.zr_law_joined.specs.Laws.{RunsSettleAsWorlds, SettledRunsHavePhases};
ghost use Rattle.zr_law_running.specs.Laws.{RunsAreOfAWorld};
ghost use Rattle.zr_law_settled.specs.Events.{NoEventIsRefused};
ghost use Rattle.zr_law_settled.specs.Tables.{AgreeWhereSettled, SettledLogsAgree};
ghost use Rattle.zr_law_told.specs.Maps.{ToldMapsAreHeard};
ghost use Rattle.zr_netrun.specs.Clauses.{OfLines, OfScriptLines, ReportsBeforeReads, WritesAsAsked};
ghost use Rattle.zr_open.specs.Laws.{ClientsOpen, RoutersOpenWithEachOther};
ghost use Rattle.zr_pend_spec.specs.Best.{GatheredIsBest};
ghost use Rattle.zr_rules.specs.Carets.{CaretsAreUnderWrongKeys, CaretsAreUnderWrongWords};
ghost use Rattle.zr_top.specs.Means.{HaveKeyTexts, LeadToTheirReport};
ghost use Rattle.zr_outside_crew.specs.Crew.{crew_faults, crew_told};
ghost use Rattle.zr_serve.specs.Serving.{outputs};
ghost use Rattle.zr_session.specs.Laws.{NoCutMatters, PackedMessagesAreReadBack};
ghost use Rattle.zr_top.specs.Asked.{IsServingBy};
ghost use Rattle.zr_make.specs.Script.{script, text_of};
ghost use Rattle.zr_top.specs.Told.{IsTold, IsWritten, TellsUsage, IsUnhindered};
ghost use Rattle.zr_top.specs.Words.{is_net, options_by, reads_input};
ghost use Rattle.zr_top_words.specs.Asked.{made_of, net_of, served_of};
ghost use Rattle.zr_top_words.specs.Forms.{FormsAreTaken};
ghost use Rattle.zr_top_words.specs.Read.{may_answer, IsRefused, IsWrong};

use crate::asked::run_asked;
use std::alloc::Global;
use std::sync::Wait;
use std::thread::Threads;
use zr_key::laws::{each_expression_is_read, reading_is_canonical, reading_keeps_keys};
use zr_law_carried::{line_acts_fit, reached_is_carriable};
use zr_law_declared::{
    settled_logs_are_known, settled_rows_are_declared, settled_sets_are_declared,
};
use zr_law_fans::{fans_are_plain, fans_end};
use zr_law_held::{lines_are_within, lines_fit};
use zr_law_histories::{queues_are_packed, replayed_maps_are_heard, running_routers_are_a_world};
use zr_law_joined::{runs_settle_as_worlds, settled_runs_have_phases};
use zr_law_keys::{matching_is_of_characters, meeting_is_of_characters};
use zr_law_names::{names_change_nothing, steps_are_alike, trees_change_nothing};
use zr_law_numbers::{
    always_taken, no_event_is_refused, no_event_of_any_world_is_refused,
    no_event_within_a_fan_is_refused, numbers_always_hold,
};
use zr_law_replies::{answers_always_hold, lines_refine, phases_refine};
use zr_law_running::runs_are_of_a_world;
use zr_law_samples::keys::{
    answering_is_covering, answering_is_meeting, asking_is_meeting, keys_are_texts,
};
use zr_law_samples::refines::{lines_are_moments, phases_deliver};
use zr_law_samples::runs::rest_is_quiet;
use zr_law_sent::passable_may_be_sent;
use zr_law_settled::{settled_logs_agree, settled_tables_agree};
use zr_law_told::{lines_tell_clients, lines_tell_tokens, told_maps_are_heard};
use zr_link_job::ServeJob;
use zr_netrun::status::Status;
use zr_open::{clients_open, routers_open_with_each_other};
use zr_outside::host::Host;
use zr_outside::sink::Sink;
use zr_outside::source::Source;
use zr_outside_brief::BriefSink;
use zr_outside_crew::Crew;
use zr_pend_spec::laws::gathered_is_best;
use zr_rules::{carets_are_under_wrong_keys, carets_are_under_wrong_words};
use zr_session::{no_cut_matters, packed_messages_are_read_back};
use zr_top_words::forms::forms_are_taken;
use zr_tree::laws::{distances_are_of_shortest_walks, records_make_graphs};

/// The whole program. Its words, without its name, are read by `clap`, and ask for one of four things. `net` reads a script from `input`, and writes the
/// report to `out`; with `--summary` it writes, at the script's end, four counts of the report in its place. With `--explain` `err` has the explanation
/// of a refused line behind the line that tells its refusal, and all else is the same.
/// `serve --id ID --listen ADDRESS [--log] [--rules] [--explain] [--admin] [DIAL]...` runs a router of that identifier, which listens at the address and dials each of the others
/// once, until the host gives no more links: the crew starts the reader of each link, with a log where the words say so. With `--rules` the whole `input`
/// is read first. It has the access rules of the router, and where it has none `err` is told why, and nothing is served; with
/// `--explain` a faulty line of them is shown behind that.
/// `make --number N --routers R --clients C --messages M` writes a script that is made from the number. Help and the version are told to `out`.
///
/// The status is `Words` only where the words are none that `clap` promises to take, and it refuses them for another cause than memory, or where a value is
/// out of range or `serve` has no identifier; and there it is `Words` or, where memory ran out, `NoMemory` (`words`). So `err` has the usage line (`usage`). Words in a form of that line,
/// with values in range, are taken for what they say (`forms`).
///
/// The clause `headline` says what clients were sent, and `told` that the report, of which `report` speaks, tells just this: the accepted
/// acts of the lines that were read lead to the moment that the report tells. Beside them stands what the headline's words mean: the keys
/// of a script are texts of expressions (`keys`), the one broker sends to a subscription exactly where some key is matched by both
/// expressions (`meeting`), and asks a queryable exactly there (`answering`) or where a complete one covers the key (`covering`), of each key it sends for a query
/// of the latest the reply than which none is later (`best`), and in a phase nothing is under way exactly where no step is possible, which a run tells by `quiet` (`rest`).
/// Where a `fan` is accepted, nothing is under way behind it, and any order of steps until then tells its lines, and leaves its world (`fans`).
/// What is read of a key's text is the canonical form of what it spells, each text that spells one is read (`readings`), and it matches the same keys
/// (`kept`). Byte by byte expressions match and meet as their characters do (`characters`). Along trees distances are those of shortest walks (`walks`).
///
/// The clause `interests` says what clients were told of each other: at each moment of the lines that were read, also between two steps of a run, at which
/// the network is settled and joined and nothing is under way, each attached client was told just what its interests want of what all other attached
/// clients have declared. Of tokens it was told just those that it wants of the living ones: those of clients whose links aren't broken (`tokens`).
///
/// The clause `tables` says what routers know of links: at each moment of the lines that were read, also between two steps of a run, at
/// which the network is settled, each router sees exactly the links that are up at both ends, as far as it reaches, whatever links came,
/// broke and went before. Beside it stand some that hold of all scripts. Where a network is settled each router knows the whole log of each router that
/// it reaches (`logs`), so just what the clients attached there have declared (`sets`); its own rows are what its clients have declared, key and kind
/// (`rows`); no router refuses an event that may come to it (`taken`), behind any lines, at any moment to which accepted acts lead, also between two steps of
/// a run, or in any world to which calls lead, also within a fan; and at each moment both ends of a link agree on each number of a request (`numbers`):
/// it is free, or asked, or kept with some replies on their way back, or ended with the final behind them; and each reply and each final that a client was sent
/// is that of its query of that turn (`answers`). At each moment, and after each legal history of a router that runs, a router keeps of each client that it
/// has a link to just what the messages leave that it has put there (`maps`).
///
/// Of several routers that run, each on its own, the clause `running` says that what they do is the run of a script's world, as long as their links keep order
/// and lose nothing, and their histories leave nothing out and close no link. There each router's tables are the replay of its own history, but for the names
/// of its clients. From a moment at which they are settled and joined, by what they have and have queued for one another, what was queued for each client
/// is, publisher by publisher, a prefix of what one broker
/// sends it (`phases`). The parcels of a link are those of these messages (`packed`).
/// In a network to which acts of lines lead, what waits for a router may be passed on by who sends it, and so may be sent. Sessions open with each
/// other, and what is packed is read back as it was, wherever it is cut (`carried`).
/// What a router does depends neither on its clients' identifiers, nor
/// on what their links weigh, nor on the trees that they name (`names`). The premises stand in `zr_law_running` (`specs/Allowed`).
///
/// The clause `served` says which rules were read, and where a router was served under them, what was called of the host, which jobs the crew started, and what
/// was written. A job names the identifier of the words and these rules: by the type of a job's parts they are those of the router at its port. Where a line of the rules is wrong, the caret that is told is under what is wrong there (`carets`). Where the rules are refused, or can't be read, the host and the crew are as they were (`untouched`). The clause
/// `made` says which text was written, where a script was made: all of it at `Done`, and else a prefix. Where `clap` may answer with help or the version,
/// that is told whole, or else in part, or the words are wrong (`helped`).
/// With all other words than those of `serve` the host and the crew are as they were (`unserved`), and with all other words than those of `net` and of `serve` with `--rules` the input is (`unread`).
/// Where nothing outside fails, all was done, a line or the words were refused, or memory ran out (`complete`).
/// Where a read of a script failed no write did, and the report of all lines that had ended was written, so none is kept back over a read (`prompt`).
/// Where a read of the input failed the status says so (`read_told`), and where a write failed (`write_told`): but the usage line tells wrong words, and where
/// it can't be written they are wrong all the same. So too the host of a router that is served has failed where the line that tells so can't be written.
pub fn run<
    S: Source,
    K: Sink,
    E: Sink,
    H: Host,
    R: Threads + Wait + Copy + Send + Sync + Drop + 'static,
>(
    rt: R,
    alloc: Global,
    words: &[String],
    input: &mut S,
    out: &mut K,
    err: &mut E,
    host: &mut H,
    crew: &mut Crew<R, ServeJob>,
) -> Status
where
    H::In: 'static,
    H::Out: BriefSink + 'static,
    H::Time: 'static,
    H::Log: 'static,
    ensures report { IfSome (net_of (map string_bytes words.now)) (λ plan. WritesAsAsked (options_by plan) (S.left input.old) (S.left input.new) (IsReadToEnd (S.ends input.old) (S.ends input.new) (S.quiets input.old) (S.quiets input.new)) result (K.held out.old) (K.held out.new) (E.held err.old) (E.held err.new)) }
    ensures prompt { IfSome (net_of (map string_bytes words.now)) (λ plan. ReportsBeforeReads (options_by plan) (S.left input.old) (S.left input.new) (K.held out.old) (K.held out.new) (S.faults input.old) (S.faults input.new) (K.faults out.old) (K.faults out.new)) }
    ensures headline { is_net (map string_bytes words.now) ≡ true → OfScriptLines (S.left input.old) (S.left input.new) IsRefined }
    ensures interests { is_net (map string_bytes words.now) ≡ true → OfLines (S.left input.old) (S.left input.new) TellsClients }
    ensures tokens { is_net (map string_bytes words.now) ≡ true → OfLines (S.left input.old) (S.left input.new) TellsTokens }
    ensures told { is_net (map string_bytes words.now) ≡ true → OfLines (S.left input.old) (S.left input.new) LeadToTheirReport }
    ensures keys { is_net (map string_bytes words.now) ≡ true → OfLines (S.left input.old) (S.left input.new) HaveKeyTexts }
    ensures tables { is_net (map string_bytes words.now) ≡ true → OfLines (S.left input.old) (S.left input.new) AgreeWhereSettled }
    ensures logs { SettledLogsAgree }
    ensures known { SettledLogsAreKnown }
    ensures rows { SettledRowsAreDeclared }
    ensures sets { SettledSetsAreDeclared }
    ensures taken { NoEventIsRefused × AlwaysTaken × NoEventOfAnyWorldIsRefused × NoEventWithinAFanIsRefused }
    ensures numbers { NumbersAlwaysHold }
    ensures answers { AnswersAlwaysHold }
    ensures maps { ToldMapsAreHeard × ReplayedMapsAreHeard }
    ensures meeting { AskingIsMeeting }
    ensures answering { AnsweringIsMeeting }
    ensures covering { AnsweringIsCovering }
    ensures best { GatheredIsBest }
    ensures rest { RestIsQuiet }
    ensures fans { FansArePlain × FansEnd }
    ensures readings { IsReading × ReadsEach }
    ensures kept { ReadingKeepsKeys }
    ensures characters { MatchingIsOfCharacters × MeetingIsOfCharacters }
    ensures walks { RecordsMakeGraphs × DistancesAreOfShortestWalks }
    ensures running { RunsAreOfAWorld × RunningRoutersAreAWorld }
    ensures phases { SettledRunsHavePhases × RunsSettleAsWorlds × PhasesDeliver × PhasesRefine }
    ensures packed { QueuesArePacked }
    ensures carried { LineActsFit × ReachedIsCarriable × PassableMaySend × RoutersOpenWithEachOther × ClientsOpen × PackedMessagesAreReadBack × NoCutMatters }
    ensures names { NamesChangeNothing × TreesChangeNothing × StepsAreAlike }
    ensures carets { CaretsAreUnderWrongWords × CaretsAreUnderWrongKeys }
    ensures served { IfSome (served_of (map string_bytes words.now)) (λ s. IsServingBy s result (S.left input.old) (S.left input.new) (IsReadToEnd (S.ends input.old) (S.ends input.new) (S.quiets input.old) (S.quiets input.new)) (H.generators host.old) (H.generators host.new) (H.calls host.old) (H.calls host.new) (crew_told crew.old) (crew_told crew.new) (crew_faults crew.old) (crew_faults crew.new) (outputs (K.held out.old) (E.held err.old) (E.faults err.old)) (outputs (K.held out.new) (E.held err.new) (E.faults err.new))) }
    ensures unserved { is_some (served_of (map string_bytes words.now)) ≡ false → (host.new ≡ host.old) × (crew.new ≡ crew.old) }
    ensures unread { reads_input (map string_bytes words.now) ≡ false → input.new ≡ input.old }
    ensures whole { is_net (map string_bytes words.now) ≡ true → result ≡ Status.Done → IsReadToEnd (S.ends input.old) (S.ends input.new) (S.quiets input.old) (S.quiets input.new) }
    ensures made { IfSome (made_of (map string_bytes words.now)) (λ plan. IsWritten result (text_of (script plan)) (K.held out.old) (K.held out.new) (K.faults out.old) (K.faults out.new) × (E.held err.new ≡ E.held err.old) × (S.left input.new ≡ S.left input.old)) }
    ensures helped { may_answer (map string_bytes words.now) ≡ true → (result ≡ Status.Words) ⊎ (IsTold result (K.held out.old) (K.held out.new) (K.faults out.old) (K.faults out.new) × (E.held err.new ≡ E.held err.old) × (S.left input.new ≡ S.left input.old)) }
    ensures ended { is_some (served_of (map string_bytes words.now)) ≡ true → result ≡ Status.Done → Rose (H.ends host.old) (H.ends host.new) }
    ensures host { result ≡ Status.HostFault → Rose (H.faults host.old) (H.faults host.new) }
    ensures refused { result ≡ Status.Refused → reads_input (map string_bytes words.now) ≡ true }
    ensures refused_told { is_some (served_of (map string_bytes words.now)) ≡ true → result ≡ Status.Refused → E.faults err.new ≡ E.faults err.old }
    ensures untouched { (result ≡ Status.Refused → (host.new ≡ host.old) × (crew.new ≡ crew.old)) × (result ≡ Status.ReadFault → (host.new ≡ host.old) × (crew.new ≡ crew.old)) }
    ensures read { result ≡ Status.ReadFault → Rose (S.faults input.old) (S.faults input.new) }
    ensures read_told { S.faults input.old < S.faults input.new → result ≡ Status.ReadFault }
    ensures write { result ≡ Status.WriteFault → Rose (K.faults out.old) (K.faults out.new) ⊎ Rose (E.faults err.old) (E.faults err.new) }
    ensures write_told { (K.faults out.old < K.faults out.new → result ≡ Status.WriteFault) × (E.faults err.old < E.faults err.new → (result ≡ Status.WriteFault) ⊎ (result ≡ Status.Words) ⊎ ((is_some (served_of (map string_bytes words.now)) ≡ true) × (result ≡ Status.HostFault))) }
    ensures complete { (Rose (S.faults input.old) (S.faults input.new) → ⊥) → (Rose (K.faults out.old) (K.faults out.new) → ⊥) → (Rose (E.faults err.old) (E.faults err.new) → ⊥) → (Rose (H.faults host.old) (H.faults host.new) → ⊥) → IsUnhindered result }
    ensures words { (result ≡ Status.Words → IsWrong (map string_bytes words.now)) × (IsRefused (map string_bytes words.now) → (result ≡ Status.Words) ⊎ (result ≡ Status.NoMemory)) }
    ensures forms { FormsAreTaken }
    ensures input_later { S.faults input.old ≤ S.faults input.new }
    ensures out_later { K.faults out.old ≤ K.faults out.new }
    ensures err_later { E.faults err.old ≤ E.faults err.new }
    ensures usage { result ≡ Status.Words → TellsUsage (E.held err.old) (E.held err.new) (E.faults err.old) (E.faults err.new) × (K.held out.new ≡ K.held out.old) × (S.left input.new ≡ S.left input.old) }
{
    // Laws: each does nothing, and brings the clause of its name.
    asking_is_meeting();
    answering_is_meeting();
    answering_is_covering();
    gathered_is_best();
    rest_is_quiet();
    fans_are_plain();
    fans_end();
    matching_is_of_characters();
    meeting_is_of_characters();
    reading_is_canonical();
    each_expression_is_read();
    reading_keeps_keys();
    records_make_graphs();
    distances_are_of_shortest_walks();
    settled_logs_agree();
    settled_logs_are_known();
    settled_rows_are_declared();
    settled_sets_are_declared();
    no_event_is_refused();
    always_taken();
    no_event_of_any_world_is_refused();
    no_event_within_a_fan_is_refused();
    numbers_always_hold();
    runs_are_of_a_world();
    running_routers_are_a_world();
    settled_runs_have_phases();
    runs_settle_as_worlds();
    phases_deliver();
    phases_refine();
    queues_are_packed();
    line_acts_fit();
    reached_is_carriable();
    passable_may_be_sent();
    routers_open_with_each_other();
    clients_open();
    packed_messages_are_read_back();
    no_cut_matters();
    names_change_nothing();
    trees_change_nothing();
    steps_are_alike();
    carets_are_under_wrong_words();
    carets_are_under_wrong_keys();
    answers_always_hold();
    told_maps_are_heard();
    replayed_maps_are_heard();
    lines_refine();
    lines_fit();
    lines_are_within();
    lines_tell_clients();
    lines_tell_tokens();
    lines_are_moments();
    keys_are_texts();
    settled_tables_agree();
    forms_are_taken();
    run_asked(rt, alloc, words, input, out, err, host, crew)
}
