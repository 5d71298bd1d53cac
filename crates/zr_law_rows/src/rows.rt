//! Scripts worked out from their bytes, as a reader of the definitions works them out.

ghost use Rattle.zr_law_rows.specs.Rows.{PublisherHearsNothing, BrokerSendsIt, DeletionIsDue, NothingIsReported, OldSampleArrives, OneCopyArrives, RunsGoOn, SampleArrives, StepsAreAccepted, UnsubscribedHearsNothing, WildcardsArriveOnce};

/// A subscriber is sent another client's sample.
pub fn sample_arrives()
    ensures { SampleArrives }
{}

/// The one broker sends that sample too, and nothing else.
pub fn broker_sends_it()
    ensures { BrokerSendsIt }
{}

/// The empty script has the empty report.
pub fn nothing_is_reported()
    ensures { NothingIsReported }
{}

/// A client is not sent its own sample.
pub fn publisher_hears_nothing()
    ensures { PublisherHearsNothing }
{}

/// A client that subscribes twice to a key is sent one copy.
pub fn one_copy_arrives()
    ensures { OneCopyArrives }
{}

/// A sample from before the mark is sent in its phase too.
pub fn old_sample_arrives()
    ensures { OldSampleArrives }
{}

/// A client that subscribes to two expressions for a key is sent one copy.
pub fn wildcards_arrive_once()
    ensures { WildcardsArriveOnce }
{}

/// A run's steps are accepted acts of its line.
pub fn steps_are_accepted()
    ensures { StepsAreAccepted }
{}

/// A client that has taken its declaration back is not sent what it declared; a deletion is sent like a sample.
pub fn unsubscribed_hears_nothing()
    ensures { UnsubscribedHearsNothing }
{}

/// The one broker sends that deletion too, and nothing else.
pub fn deletion_is_due()
    ensures { DeletionIsDue }
{}

/// A run stops after the steps that it asks for, or where no step is possible.
pub fn runs_go_on()
    ensures { RunsGoOn }
{}
