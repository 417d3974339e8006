// Plans worked by hand, against the written rules.
#![tactic(auto)]

ghost use Rattle.worked.specs.TextExamples.{SixteenInOtherWords, FirstWrongPlaceDecides};
ghost use Rattle.worked.specs.SortExamples.{ZeroIsTheUnsortedOrder, SortedByWhatIsPrimitive};

// Every plan worked by hand is what the rules give.
pub fn worked_examples_stand()
    ensures sixteen { SixteenInOtherWords }
    ensures wrong_place { FirstWrongPlaceDecides }
    ensures zero { ZeroIsTheUnsortedOrder }
    ensures primitive { SortedByWhatIsPrimitive }
{}
