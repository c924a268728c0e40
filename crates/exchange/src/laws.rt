// Theorems, each on the contract of a function.
ghost use Rattle.exchange.specs.Outside.{Outside};
ghost use Rattle.exchange.specs.Wire.{WireLaws};
ghost use Rattle.exchange.specs.Pinned.{Pinned};
ghost use Rattle.exchange.specs.Tagged.{Tagged};
ghost use Rattle.exchange.specs.Cases.{Worked};
ghost use Rattle.exchange.specs.Promise.{EveryExchange};

// Reading what was written gives it back, and only bytes that writing could have made are read.
pub fn messages_are_read_as_written()
    ensures { WireLaws }
{}

// The tag is over every byte of a message before it, and nothing is read outside header, covered text and tag.
pub fn tags_cover_messages()
    ensures { Tagged }
{}

// Whatever comes, the answer is the bookkeeping's, and a refusal leaves all as it was.
pub fn answers_are_pinned()
    ensures { (o : Outside) → Pinned o }
{}

// A worked exchange comes out as it must, with functions of the outside that keep their laws.
pub fn worked_exchange_holds()
    ensures { Worked }
{}

// Every exchange, byte for byte, is what the model says, and keeps the laws of the runs.
pub fn every_exchange_keeps_the_laws()
    ensures { EveryExchange }
{}
