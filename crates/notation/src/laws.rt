// Theorems, each on the contract of a function.
ghost use Rattle.notation.specs.Laws.{TextsReadBack, NumbersReadBack};

// What is written is read back.
pub fn notation_reads_back()
    ensures texts { TextsReadBack }
    ensures numbers { NumbersReadBack }
{}
