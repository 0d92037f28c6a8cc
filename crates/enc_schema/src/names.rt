//! The names of every table and its columns in the spelling of the standard (ECMA-335 II.22;
//! Portable PDB from 30 on).
ghost use Rattle.std.specs.Prelude.{◌≡◌, ℕ, ◌+◌, List, map, slice_get, option_map};
ghost use Rattle.std.specs.Borrow.{Bor};
ghost use Rattle.enc_schema.specs.Schema.{list_at};
ghost use Rattle.enc_schema.specs.Names.{names_in, table_name_in, column_name_in};

/// By table number: the table's name, and its columns'.
static NAMES: [&[&str]; 56] = [
    &["Module", "Generation", "Name", "Mvid", "EncId", "EncBaseId"],
    &["TypeRef", "ResolutionScope", "TypeName", "TypeNamespace"],
    &[
        "TypeDef",
        "Flags",
        "TypeName",
        "TypeNamespace",
        "Extends",
        "FieldList",
        "MethodList",
    ],
    &["FieldPtr", "Field"],
    &["Field", "Flags", "Name", "Signature"],
    &["MethodPtr", "Method"],
    &[
        "MethodDef",
        "RVA",
        "ImplFlags",
        "Flags",
        "Name",
        "Signature",
        "ParamList",
    ],
    &["ParamPtr", "Param"],
    &["Param", "Flags", "Sequence", "Name"],
    &["InterfaceImpl", "Class", "Interface"],
    &["MemberRef", "Class", "Name", "Signature"],
    &["Constant", "Type", "Parent", "Value"],
    &["CustomAttribute", "Parent", "Type", "Value"],
    &["FieldMarshal", "Parent", "NativeType"],
    &["DeclSecurity", "Action", "Parent", "PermissionSet"],
    &["ClassLayout", "PackingSize", "ClassSize", "Parent"],
    &["FieldLayout", "Offset", "Field"],
    &["StandAloneSig", "Signature"],
    &["EventMap", "Parent", "EventList"],
    &["EventPtr", "Event"],
    &["Event", "EventFlags", "Name", "EventType"],
    &["PropertyMap", "Parent", "PropertyList"],
    &["PropertyPtr", "Property"],
    &["Property", "Flags", "Name", "Type"],
    &["MethodSemantics", "Semantics", "Method", "Association"],
    &["MethodImpl", "Class", "MethodBody", "MethodDeclaration"],
    &["ModuleRef", "Name"],
    &["TypeSpec", "Signature"],
    &[
        "ImplMap",
        "MappingFlags",
        "MemberForwarded",
        "ImportName",
        "ImportScope",
    ],
    &["FieldRVA", "RVA", "Field"],
    &["EncLog", "Token", "FuncCode"],
    &["EncMap", "Token"],
    &[
        "Assembly",
        "HashAlgId",
        "MajorVersion",
        "MinorVersion",
        "BuildNumber",
        "RevisionNumber",
        "Flags",
        "PublicKey",
        "Name",
        "Culture",
    ],
    &["AssemblyProcessor", "Processor"],
    &[
        "AssemblyOS",
        "OSPlatformId",
        "OSMajorVersion",
        "OSMinorVersion",
    ],
    &[
        "AssemblyRef",
        "MajorVersion",
        "MinorVersion",
        "BuildNumber",
        "RevisionNumber",
        "Flags",
        "PublicKeyOrToken",
        "Name",
        "Culture",
        "HashValue",
    ],
    &["AssemblyRefProcessor", "Processor", "AssemblyRef"],
    &[
        "AssemblyRefOS",
        "OSPlatformId",
        "OSMajorVersion",
        "OSMinorVersion",
        "AssemblyRef",
    ],
    &["File", "Flags", "Name", "HashValue"],
    &[
        "ExportedType",
        "Flags",
        "TypeDefId",
        "TypeName",
        "TypeNamespace",
        "Implementation",
    ],
    &[
        "ManifestResource",
        "Offset",
        "Flags",
        "Name",
        "Implementation",
    ],
    &["NestedClass", "NestedClass", "EnclosingClass"],
    &["GenericParam", "Number", "Flags", "Owner", "Name"],
    &["MethodSpec", "Method", "Instantiation"],
    &["GenericParamConstraint", "Owner", "Constraint"],
    &[],
    &[],
    &[],
    &["Document", "Name", "HashAlgorithm", "Hash", "Language"],
    &["MethodDebugInformation", "Document", "SequencePoints"],
    &[
        "LocalScope",
        "Method",
        "ImportScope",
        "VariableList",
        "ConstantList",
        "StartOffset",
        "Length",
    ],
    &["LocalVariable", "Attributes", "Index", "Name"],
    &["LocalConstant", "Name", "Signature"],
    &["ImportScope", "Parent", "Imports"],
    &["StateMachineMethod", "MoveNextMethod", "KickoffMethod"],
    &["CustomDebugInformation", "Parent", "Kind", "Value"],
];

/// The list at the place, and none of its things where there is no such place.
fn entry<'a>(lists: &[&'a [&'static str]], i: usize) -> &'a [&'static str]
    ensures { map (λ (s : Bor (List ℕ)). s.now) result.now
        ≡ list_at (map (λ (l : Bor (List (Bor (List ℕ)))). map (λ (s : Bor (List ℕ)). s.now) l.now) lists.now) i }
{
    if i < lists.len() { lists[i] } else { &[] }
}

/// The name of a table and those of its columns, none where there is no such table.
#[tactic(auto, unfolding(crate::specs::Names::names_in))]
fn names_of(table: u8) -> &'static [&'static str]
    ensures { map (λ (s : Bor (List ℕ)). s.now) result.now ≡ names_in table }
{
    entry(&NAMES, table as usize)
}

/// The name at the place.
fn name_at(names: &[&'static str], i: usize) -> Option<&'static str>
    ensures { option_map (λ (s : Bor (List ℕ)). s.now) result
        ≡ slice_get (map (λ (s : Bor (List ℕ)). s.now) names.now) i }
{
    if i < names.len() {
        Some(names[i])
    } else {
        None
    }
}

/// A table's name in the spelling of the standard. None where there is no such table.
pub fn table_name(table: u8) -> Option<&'static str>
    ensures { option_map (λ (s : Bor (List ℕ)). s.now) result ≡ table_name_in table }
{
    name_at(names_of(table), 0)
}

/// The name of a table's column, from 0, in the spelling of the standard. None where there is no
/// such table or column.
pub fn column_name(table: u8, i: u8) -> Option<&'static str>
    ensures { option_map (λ (s : Bor (List ℕ)). s.now) result ≡ column_name_in table i }
{
    name_at(names_of(table), i as usize + 1)
}
