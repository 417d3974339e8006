// Numberings worked by hand.
ghost use Rattle.numbering.specs.Examples.{LaterStatedIsPassed, CountsOnFromStated, NothingAfterTheGreatest, GreatestIsGiven, CountsThroughNegatives, NoFieldsNoIds};

// The numberings worked by hand are what the rules give.
pub fn worked_examples_stand()
    ensures later_stated { LaterStatedIsPassed }
    ensures counts_on { CountsOnFromStated }
    ensures nothing_after { NothingAfterTheGreatest }
    ensures greatest { GreatestIsGiven }
    ensures negatives { CountsThroughNegatives }
    ensures no_fields { NoFieldsNoIds }
{}
