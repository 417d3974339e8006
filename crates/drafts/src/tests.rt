// Drafts of the columns of booked passes.
use crate::builder::PartitionSpecBuilder;
use faults::Fault;
use names::name::NamePlace;
use partitions::batch::{Batch, BatchField};
use partitions::fault::DraftFault;
use partitions::field::FieldView;
use partitions::spec::UnboundPartitionSpec;
use schemas::table::{ColumnRecord, ColumnTable};
use std::test::Fail;
use transforms::datatypes::{PrimitiveType, Type};
use transforms::transform::Transform;

const NAMES: &[u8] = b"stationbeganframesframes.element";

const COLUMNS: [ColumnRecord; 4] = [
    ColumnRecord {
        id: 1,
        field_type: Type::Primitive(PrimitiveType::String),
        is_marked: false,
        name: NamePlace {
            start: 0,
            length: 7,
        },
    },
    ColumnRecord {
        id: 2,
        field_type: Type::Primitive(PrimitiveType::Timestamptz),
        is_marked: false,
        name: NamePlace {
            start: 7,
            length: 5,
        },
    },
    ColumnRecord {
        id: 3,
        field_type: Type::List(0),
        is_marked: false,
        name: NamePlace {
            start: 12,
            length: 6,
        },
    },
    ColumnRecord {
        id: 4,
        field_type: Type::Primitive(PrimitiveType::Double),
        is_marked: true,
        name: NamePlace {
            start: 18,
            length: 14,
        },
    },
];

// A field without an id.
fn field<'a>(source_id: i32, name: &'a [u8], transform: Transform) -> FieldView<'a> {
    FieldView {
        source_id,
        field_id: None,
        name,
        transform,
    }
}

fn batch<'a>(fields: &'a [BatchField]) -> Batch<'a> {
    Batch {
        fields,
        area: b"dayframe",
    }
}

fn number(answer: Result<(), DraftFault>) -> u8 {
    match answer {
        Ok(()) => 0,
        Err(fault) => fault.number(),
    }
}

#[test]
fn adds_ask_the_schema(rt: HostRuntime) -> Result<(), Fail> {
    let columns = COLUMNS;
    let table = ColumnTable {
        records: &columns,
        names: NAMES,
    };
    let mut draft = PartitionSpecBuilder::new(rt.alloc())?;
    assert_eq!(rt;
        number(draft.add_unbound_field(&table, &field(1, b"began", Transform::Identity))),
        22
    );
    assert_eq!(rt;
        number(draft.add_unbound_field(&table, &field(2, b"began", Transform::Day))),
        23
    );
    assert_eq!(rt;
        number(draft.add_unbound_field(&table, &field(9, b"lost", Transform::Void))),
        24
    );
    assert_eq!(rt;
        number(draft.add_unbound_field(&table, &field(3, b"frame", Transform::Identity))),
        25
    );
    assert_eq!(rt;
        number(draft.add_unbound_field(&table, &field(4, b"frame", Transform::Bucket(4)))),
        33
    );
    assert_eq!(rt;
        number(draft.add_unbound_field(&table, &field(1, b"day", Transform::Day))),
        26
    );
    assert_eq!(rt;
        number(draft.add_unbound_field(&table, &field(4, b"gone", Transform::Void))),
        0
    );
    assert_eq!(rt;
        number(draft.add_partition_field(&table, b"ended", b"day", Transform::Day)),
        30
    );
    assert_eq!(rt;
        number(draft.add_partition_field(&table, b"began", b"day", Transform::Day)),
        0
    );
    assert_eq!(rt; draft.fields().len(), 2);
    Ok(())
}

#[test]
fn a_batch_is_added_whole_or_not_at_all(rt: HostRuntime) -> Result<(), Fail> {
    let columns = COLUMNS;
    let table = ColumnTable {
        records: &columns,
        names: NAMES,
    };
    let mut draft = PartitionSpecBuilder::new(rt.alloc())?;
    let day = BatchField {
        source_id: 2,
        field_id: Some(1000),
        name: NamePlace {
            start: 0,
            length: 3,
        },
        transform: Transform::Day,
    };
    let frame = BatchField {
        source_id: 4,
        field_id: None,
        name: NamePlace {
            start: 3,
            length: 5,
        },
        transform: Transform::Identity,
    };
    match draft.add_unbound_fields(&table, &batch(&[day, frame])) {
        Ok(()) => assert!(rt; false),
        Err(fault) => {
            assert_eq!(rt; fault.number(), 33);
            assert_eq!(rt; fault.index(), Some(1));
        }
    }
    assert_eq!(rt; draft.fields().len(), 0);
    assert!(rt; draft.add_unbound_fields(&table, &batch(&[day])).is_ok());
    assert_eq!(rt; draft.fields().len(), 1);
    Ok(())
}

#[test]
fn an_unbound_spec_is_taken_over(rt: HostRuntime) -> Result<(), Fail> {
    let columns = COLUMNS;
    let table = ColumnTable {
        records: &columns,
        names: NAMES,
    };
    let mut spec = UnboundPartitionSpec::new(rt.alloc())?;
    spec.restart(Some(7));
    assert!(rt;
        spec.add_partition_field(&field(2, b"day", Transform::Day))
            .is_ok()
    );
    match PartitionSpecBuilder::new_from_unbound(spec, &table) {
        Ok(draft) => {
            assert_eq!(rt; draft.spec_id(), 7);
            assert_eq!(rt; draft.last_assigned_field_id(), 999);
            assert_eq!(rt; draft.fields().len(), 1);
            Ok(())
        }
        Err(_) => {
            assert!(rt; false);
            Ok(())
        },
    }
}
