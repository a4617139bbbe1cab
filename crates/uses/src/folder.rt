//! A type that holds itself.

ghost use Rattle.std.specs.Prelude.{◌≡◌, [], ◌∷◌, map, true, string_bytes, IsTrue, IfOk, IfErr};
ghost use Rattle.yaml_base.specs.declared.error.Cause.TheVariants as cause;
ghost use Rattle.yaml_shape.specs.DataView.{data_of, items_of, items_view};
ghost use Rattle.yaml_shape.specs.EqualData.{EqualData};
ghost use Rattle.yaml_shape.specs.HasShape.{HasShape, all_have, each_has};
ghost use Rattle.yaml_shape.specs.Join.{IsTooLarge};
ghost use Rattle.yaml_shape.specs.PlainData.{seq_data, struct_data, text_data};
ghost use Rattle.yaml_types.specs.Start.{IsStart};
ghost use Rattle.yaml_types.specs.declared.fault.BuildFault.TheVariants as build;
ghost use Rattle.uses.specs.Folders.{BuiltFolder, BuiltFolders, folder_data, folder_start};

use std::alloc::Global;
use yaml_base::Error;
use yaml_shape::{Data, Schema, SchemaFault, Shape, ShapeId, Text};
use yaml_tape::Tape;
use yaml_types::{BuildFault, Deserialize, Serialize};

/// A folder, with the folders in it.
#[derive(Drop)]
pub struct Folder {
    pub name: String,
    pub folders: Vec<Folder>,
}

// The table of folders: the third shape names the second, and the second the third.
fn folder_schema(alloc: Global) -> Result<(Schema, ShapeId), SchemaFault>
    ensures ok { IfOk result (IsStart folder_start) }
    ensures refused { IfErr result (IsTooLarge 3) }
{
    let fields = vec![in alloc;
        (String::from_str(alloc, "name")?, ShapeId(0)),
        (String::from_str(alloc, "folders")?, ShapeId(1)),
    ]?;
    let folder = Shape::Struct {
        name: String::from_str(alloc, "Folder")?,
        fields,
    };
    let shapes = vec![in alloc; Shape::Str, Shape::Seq(ShapeId(2)), folder]?;
    match Schema::new(alloc, shapes) {
        Ok(schema) => Ok((schema, ShapeId(2))),
        Err(fault) => Err(fault),
    }
}

// The folder of data of its shape.
#[cycle(build)]
fn build_folder(alloc: Global, found: &Data<'_>) -> Result<Folder, BuildFault>
    requires { HasShape folder_start.0 2 (data_of found.now) }
    ensures ok { IfOk result (BuiltFolder (data_of found.now)) }
    ensures refused { IfErr result (λ fault. fault ≡ build.Memory) }
{
    match found {
        Data::Struct(fields) => build_fields(alloc, fields),
        _ => unreachable!(),
    }
}

// The folder of its fields.
#[cycle(build)]
fn build_fields(alloc: Global, fields: &[Data<'_>]) -> Result<Folder, BuildFault>
    requires { IsTrue (each_has folder_start.0 (0 ∷ 1 ∷ []) (items_view fields.now)) }
    ensures ok { IfOk result (BuiltFolder (struct_data (items_view fields.now))) }
    ensures refused { IfErr result (λ fault. fault ≡ build.Memory) }
{
    let name = match build_name(alloc, &fields[0]) {
        Ok(name) => name,
        Err(fault) => return Err(fault),
    };
    match build_list(alloc, &fields[1]) {
        Ok(folders) => Ok(Folder { name, folders }),
        Err(fault) => Err(fault),
    }
}

// The name of a folder.
fn build_name(alloc: Global, found: &Data<'_>) -> Result<String, BuildFault>
    requires { HasShape folder_start.0 0 (data_of found.now) }
    ensures ok { IfOk result (λ name. EqualData (text_data true (string_bytes name)) (data_of found.now)) }
    ensures refused { IfErr result (λ fault. fault ≡ build.Memory) }
{
    match found {
        Data::Str(text) => Ok(String::from_str(alloc, text.as_str())?),
        _ => unreachable!(),
    }
}

// The folders in a folder.
#[cycle(build)]
fn build_list(alloc: Global, found: &Data<'_>) -> Result<Vec<Folder>, BuildFault>
    requires { HasShape folder_start.0 1 (data_of found.now) }
    ensures ok { IfOk result (λ folders. EqualData (seq_data (items_of (map folder_data folders.items)))
        (data_of found.now)) }
    ensures refused { IfErr result (λ fault. fault ≡ build.Memory) }
{
    match found {
        Data::Seq(items) => build_items(alloc, items),
        _ => unreachable!(),
    }
}

// The folders of the items, in order.
#[cycle(build)]
fn build_items(alloc: Global, items: &[Data<'_>]) -> Result<Vec<Folder>, BuildFault>
    requires { IsTrue (all_have folder_start.0 2 (items_view items.now)) }
    ensures ok { IfOk result (λ folders. BuiltFolders (items_view items.now) folders.items) }
    ensures refused { IfErr result (λ fault. fault ≡ build.Memory) }
{
    let mut folders = Vec::with_capacity(alloc, items.len())?;
    for item in items {
        folders.push(build_folder(alloc, item)?)?;
    }
    Ok(folders)
}

// The data of a folder, which borrows the names from it.
fn written_folder<'a>(folder: &'a Folder, alloc: Global) -> Result<Data<'a>, Error>
    ensures ok { IfOk result (λ made. data_of made ≡ folder_data folder.now) }
    ensures refused { IfErr result (λ fault. fault ≡ cause.Memory) }
{
    let mut folders = Vec::with_capacity(alloc, folder.folders.len())?;
    for inner in &folder.folders {
        folders.push(written_folder(inner, alloc)?)?;
    }
    let name = Data::Str(Text::Borrowed(folder.name.as_str()));
    Ok(Data::Struct(vec![in alloc; name, Data::Seq(folders)]?))
}

impl<'de> Deserialize<'de> for Folder {
    ghost use Rattle.yaml_types.specs.BuildRefusal.{NeverRefused};
    ghost use Rattle.uses.specs.FolderLaws.{folder_closed};

    ghost start = { folder_start };

    ghost built = { BuiltFolder };

    ghost refused = { NeverRefused };

    ghost closed = { folder_closed };

    fn schema(alloc: Global) -> Result<(Schema, ShapeId), SchemaFault> {
        folder_schema(alloc)
    }

    fn build(alloc: Global, found: Data<'de>) -> Result<Folder, BuildFault> {
        build_folder(alloc, &found)
    }

    fn read_node(
        _alloc: Global,
        _tape: &Tape<'de>,
        _place: &mut usize,
        _depth: usize,
    ) -> Option<Folder> {
        None
    }
}

impl Serialize for Folder {
    ghost use Rattle.uses.specs.FolderLaws.{folder_closed, folder_of_shape};

    ghost start = { folder_start };

    ghost written = { folder_data };

    ghost closed = { folder_closed };

    ghost of_shape = { λ f _. folder_of_shape f };

    fn schema(alloc: Global) -> Result<(Schema, ShapeId), SchemaFault> {
        folder_schema(alloc)
    }

    fn to_data<'a>(&'a self, alloc: Global) -> Result<Data<'a>, Error> {
        written_folder(self, alloc)
    }
}
