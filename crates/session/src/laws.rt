// The theorem over every exchange holds of what the calls of this crate cite.
ghost use Rattle.session.specs.Lawful.{OursLawful, OurExchanges};

// The digests, the stream and the tag keep the laws that the theorem over every exchange takes for granted, with any two boxes that keep theirs.
pub fn our_outside_keeps_its_laws()
    ensures { OursLawful }
{}

// Every exchange by the steps that send and take are pinned to keeps all laws, with any two boxes that keep theirs.
pub fn our_exchanges_keep_the_laws()
    ensures { OurExchanges }
{}
