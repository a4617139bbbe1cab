//! What is known of data and schemas in memory, and the laws over writing and reading together, may be asked for
//! anywhere.

use std::alloc::{AllocError, Global};
use std::test::Fail;
use uses::Server;
use yaml_round::held::{data_is_held, schema_is_held};
use yaml_round::laws::{
    a_list_fits, a_value_fits, a_variant_fits, a_written_string_means_itself,
    a_written_value_reads_back, an_optional_fits, equal_in_one_order_is_equal,
    written_data_reads_back,
};
use yaml_shape::{Data, Entry, Text};
use yaml_types::Serialize;

// Data with a part of each kind.
fn parts<'a>(alloc: Global) -> Result<Data<'a>, AllocError> {
    let text = Data::Str(Text::Borrowed("x"));
    let key = Data::Variant(0, Box::new(alloc, Data::Char('c'))?);
    let value = Data::Some(Box::new(alloc, Data::Seq(vec![in alloc; text]?))?);
    Ok(Data::Map(vec![in alloc; Entry { key, value }]?))
}

// Goes over data, and drops it.
fn go_over(data: Data<'_>) {
    data_is_held(&data);
}

#[test]
fn laws_and_what_is_held(rt: HostRuntime) -> Result<(), Fail> {
    let (schema, _) = <Server as Serialize>::schema(rt.alloc())?;
    schema_is_held(&schema);
    go_over(parts(rt.alloc())?);
    a_written_string_means_itself();
    equal_in_one_order_is_equal();
    an_optional_fits();
    a_value_fits();
    a_variant_fits();
    a_list_fits();
    written_data_reads_back();
    a_written_value_reads_back::<Vec<Option<i64>>>();
    Ok(())
}
