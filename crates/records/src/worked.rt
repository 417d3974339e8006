// Records worked out by hand.
ghost use Rattle.records.specs.Worked.{BlankIsEightZeros, RecordOfOneDay};

pub fn worked_records_stand()
    ensures blank { BlankIsEightZeros }
    ensures one_day { RecordOfOneDay }
{}
