//! The columns of every table in the order of the standard (ECMA-335 II.22; Portable PDB from 30 on).
ghost use Rattle.std.specs.Prelude.{◌≡◌, ℕ, ◌≤◌, List, length, map, IsTrue, nat_le};
ghost use Rattle.std.specs.List.{list_all};
ghost use Rattle.std.specs.Borrow.{Bor};
ghost use Rattle.enc_schema.specs.declared.column.Column.{Column as TheColumn};
ghost use Rattle.enc_schema.specs.Schema.{list_at, columns_in, column_in};

use crate::column::Coding;
use crate::column::Column::{self, Blob, Coded, Guid, Index, Num8, Num16, Num32, Run, Text};
use enc_base::tables::{
    ASSEMBLY_REF, DOCUMENT, EVENT, FIELD, GENERIC_PARAM, IMPORT_SCOPE, LOCAL_CONSTANT,
    LOCAL_VARIABLE, METHOD_DEF, MODULE_REF, PARAM, PROPERTY, TYPE_DEF,
};

/// By table number.
static SCHEMA: [&[Column]; 56] = [
    // 00 Module
    &[Num16, Text, Guid, Guid, Guid],
    // 01 TypeRef
    &[Coded(Coding::ResolutionScope), Text, Text],
    // 02 TypeDef
    &[
        Num32,
        Text,
        Text,
        Coded(Coding::TypeDefOrRef),
        Run(FIELD),
        Run(METHOD_DEF),
    ],
    // 03 FieldPtr
    &[Index(FIELD)],
    // 04 Field
    &[Num16, Text, Blob],
    // 05 MethodPtr
    &[Index(METHOD_DEF)],
    // 06 MethodDef
    &[Num32, Num16, Num16, Text, Blob, Run(PARAM)],
    // 07 ParamPtr
    &[Index(PARAM)],
    // 08 Param
    &[Num16, Num16, Text],
    // 09 InterfaceImpl
    &[Index(TYPE_DEF), Coded(Coding::TypeDefOrRef)],
    // 0A MemberRef
    &[Coded(Coding::MemberRefParent), Text, Blob],
    // 0B Constant
    &[Num8, Coded(Coding::HasConstant), Blob],
    // 0C CustomAttribute
    &[
        Coded(Coding::HasCustomAttribute),
        Coded(Coding::CustomAttributeType),
        Blob,
    ],
    // 0D FieldMarshal
    &[Coded(Coding::HasFieldMarshal), Blob],
    // 0E DeclSecurity
    &[Num16, Coded(Coding::HasDeclSecurity), Blob],
    // 0F ClassLayout
    &[Num16, Num32, Index(TYPE_DEF)],
    // 10 FieldLayout
    &[Num32, Index(FIELD)],
    // 11 StandAloneSig
    &[Blob],
    // 12 EventMap
    &[Index(TYPE_DEF), Run(EVENT)],
    // 13 EventPtr
    &[Index(EVENT)],
    // 14 Event
    &[Num16, Text, Coded(Coding::TypeDefOrRef)],
    // 15 PropertyMap
    &[Index(TYPE_DEF), Run(PROPERTY)],
    // 16 PropertyPtr
    &[Index(PROPERTY)],
    // 17 Property
    &[Num16, Text, Blob],
    // 18 MethodSemantics
    &[Num16, Index(METHOD_DEF), Coded(Coding::HasSemantics)],
    // 19 MethodImpl
    &[
        Index(TYPE_DEF),
        Coded(Coding::MethodDefOrRef),
        Coded(Coding::MethodDefOrRef),
    ],
    // 1A ModuleRef
    &[Text],
    // 1B TypeSpec
    &[Blob],
    // 1C ImplMap
    &[
        Num16,
        Coded(Coding::MemberForwarded),
        Text,
        Index(MODULE_REF),
    ],
    // 1D FieldRVA
    &[Num32, Index(FIELD)],
    // 1E EncLog
    &[Num32, Num32],
    // 1F EncMap
    &[Num32],
    // 20 Assembly
    &[Num32, Num16, Num16, Num16, Num16, Num32, Blob, Text, Text],
    // 21 AssemblyProcessor
    &[Num32],
    // 22 AssemblyOS
    &[Num32, Num32, Num32],
    // 23 AssemblyRef
    &[Num16, Num16, Num16, Num16, Num32, Blob, Text, Text, Blob],
    // 24 AssemblyRefProcessor
    &[Num32, Index(ASSEMBLY_REF)],
    // 25 AssemblyRefOS
    &[Num32, Num32, Num32, Index(ASSEMBLY_REF)],
    // 26 File
    &[Num32, Text, Blob],
    // 27 ExportedType
    &[Num32, Num32, Text, Text, Coded(Coding::Implementation)],
    // 28 ManifestResource
    &[Num32, Num32, Text, Coded(Coding::Implementation)],
    // 29 NestedClass
    &[Index(TYPE_DEF), Index(TYPE_DEF)],
    // 2A GenericParam
    &[Num16, Num16, Coded(Coding::TypeOrMethodDef), Text],
    // 2B MethodSpec
    &[Coded(Coding::MethodDefOrRef), Blob],
    // 2C GenericParamConstraint
    &[Index(GENERIC_PARAM), Coded(Coding::TypeDefOrRef)],
    // 2D
    &[],
    // 2E
    &[],
    // 2F
    &[],
    // 30 Document
    &[Blob, Guid, Blob, Guid],
    // 31 MethodDebugInformation
    &[Index(DOCUMENT), Blob],
    // 32 LocalScope
    &[
        Index(METHOD_DEF),
        Index(IMPORT_SCOPE),
        Index(LOCAL_VARIABLE),
        Index(LOCAL_CONSTANT),
        Num32,
        Num32,
    ],
    // 33 LocalVariable
    &[Num16, Num16, Text],
    // 34 LocalConstant
    &[Text, Blob],
    // 35 ImportScope
    &[Index(IMPORT_SCOPE), Blob],
    // 36 StateMachineMethod
    &[Index(METHOD_DEF), Index(METHOD_DEF)],
    // 37 CustomDebugInformation
    &[Coded(Coding::HasCustomDebugInformation), Guid, Blob],
];

/// The list at the place, and none of its things where there is no such place.
fn entry<'a>(lists: &[&'a [Column]], i: usize) -> &'a [Column]
    requires { IsTrue (list_all (λ (l : Bor (List TheColumn)). nat_le (length l.now) 9) lists.now) }
    ensures list { result.now ≡ list_at (map (λ (l : Bor (List TheColumn)). l.now) lists.now) i }
    ensures few { length result.now ≤ 9 }
{
    if i < lists.len() { lists[i] } else { &[] }
}

/// The columns of a table in the order of the standard (ECMA-335 II.22), none where there is no
/// such table.
#[tactic(auto, unfolding(crate::specs::Schema::columns_in))]
pub fn columns_of(table: u8) -> &'static [Column]
    ensures columns { result.now ≡ columns_in table }
    ensures few { length result.now ≤ 9 }
{
    entry(&SCHEMA, table as usize)
}

/// A table's column, from 0. None where there is no such table or column.
pub fn column_of(table: u8, i: u8) -> Option<Column>
    ensures { result ≡ column_in table i }
{
    columns_of(table).get(i as usize).copied()
}
