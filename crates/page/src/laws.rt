// Theorems, each on the contract of a function.
ghost use Rattle.page.specs.Reading.{PageLaws};
ghost use Rattle.page.specs.Kept.{StepsKeepValid};

// Reading what a valid side writes gives that side back, and bytes are read in one way only.
pub fn page_laws_hold()
    ensures { PageLaws }
{}

// Every side that the steps lead to, from its beginning on, is valid: its page is read as that very side.
pub fn steps_keep_sides_valid()
    ensures { StepsKeepValid }
{}
