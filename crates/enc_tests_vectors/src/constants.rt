//! The constants that name tables and columns, each by its name.

use crate::lines::{Args, Fault, told};
use enc_base::tables;
use enc_schema::columns;
use std::alloc::Global;

/// The tables by their constants, and how many a module can have.
static TABLES: [(&str, u8); 54] = [
    ("TABLE_COUNT", tables::TABLE_COUNT),
    ("MODULE", tables::MODULE),
    ("TYPE_REF", tables::TYPE_REF),
    ("TYPE_DEF", tables::TYPE_DEF),
    ("FIELD_PTR", tables::FIELD_PTR),
    ("FIELD", tables::FIELD),
    ("METHOD_PTR", tables::METHOD_PTR),
    ("METHOD_DEF", tables::METHOD_DEF),
    ("PARAM_PTR", tables::PARAM_PTR),
    ("PARAM", tables::PARAM),
    ("INTERFACE_IMPL", tables::INTERFACE_IMPL),
    ("MEMBER_REF", tables::MEMBER_REF),
    ("CONSTANT", tables::CONSTANT),
    ("CUSTOM_ATTRIBUTE", tables::CUSTOM_ATTRIBUTE),
    ("FIELD_MARSHAL", tables::FIELD_MARSHAL),
    ("DECL_SECURITY", tables::DECL_SECURITY),
    ("CLASS_LAYOUT", tables::CLASS_LAYOUT),
    ("FIELD_LAYOUT", tables::FIELD_LAYOUT),
    ("STAND_ALONE_SIG", tables::STAND_ALONE_SIG),
    ("EVENT_MAP", tables::EVENT_MAP),
    ("EVENT_PTR", tables::EVENT_PTR),
    ("EVENT", tables::EVENT),
    ("PROPERTY_MAP", tables::PROPERTY_MAP),
    ("PROPERTY_PTR", tables::PROPERTY_PTR),
    ("PROPERTY", tables::PROPERTY),
    ("METHOD_SEMANTICS", tables::METHOD_SEMANTICS),
    ("METHOD_IMPL", tables::METHOD_IMPL),
    ("MODULE_REF", tables::MODULE_REF),
    ("TYPE_SPEC", tables::TYPE_SPEC),
    ("IMPL_MAP", tables::IMPL_MAP),
    ("FIELD_RVA", tables::FIELD_RVA),
    ("ENC_LOG", tables::ENC_LOG),
    ("ENC_MAP", tables::ENC_MAP),
    ("ASSEMBLY", tables::ASSEMBLY),
    ("ASSEMBLY_PROCESSOR", tables::ASSEMBLY_PROCESSOR),
    ("ASSEMBLY_OS", tables::ASSEMBLY_OS),
    ("ASSEMBLY_REF", tables::ASSEMBLY_REF),
    ("ASSEMBLY_REF_PROCESSOR", tables::ASSEMBLY_REF_PROCESSOR),
    ("ASSEMBLY_REF_OS", tables::ASSEMBLY_REF_OS),
    ("FILE", tables::FILE),
    ("EXPORTED_TYPE", tables::EXPORTED_TYPE),
    ("MANIFEST_RESOURCE", tables::MANIFEST_RESOURCE),
    ("NESTED_CLASS", tables::NESTED_CLASS),
    ("GENERIC_PARAM", tables::GENERIC_PARAM),
    ("METHOD_SPEC", tables::METHOD_SPEC),
    ("GENERIC_PARAM_CONSTRAINT", tables::GENERIC_PARAM_CONSTRAINT),
    ("DOCUMENT", tables::DOCUMENT),
    ("METHOD_DEBUG_INFORMATION", tables::METHOD_DEBUG_INFORMATION),
    ("LOCAL_SCOPE", tables::LOCAL_SCOPE),
    ("LOCAL_VARIABLE", tables::LOCAL_VARIABLE),
    ("LOCAL_CONSTANT", tables::LOCAL_CONSTANT),
    ("IMPORT_SCOPE", tables::IMPORT_SCOPE),
    ("STATE_MACHINE_METHOD", tables::STATE_MACHINE_METHOD),
    ("CUSTOM_DEBUG_INFORMATION", tables::CUSTOM_DEBUG_INFORMATION),
];

/// The columns by their constants.
static COLUMNS: [(&str, u8); 97] = [
    ("MODULE_GENERATION", columns::MODULE_GENERATION),
    ("MODULE_NAME", columns::MODULE_NAME),
    ("MODULE_MVID", columns::MODULE_MVID),
    ("MODULE_ENC_ID", columns::MODULE_ENC_ID),
    ("MODULE_ENC_BASE_ID", columns::MODULE_ENC_BASE_ID),
    (
        "TYPE_REF_RESOLUTION_SCOPE",
        columns::TYPE_REF_RESOLUTION_SCOPE,
    ),
    ("TYPE_REF_TYPE_NAME", columns::TYPE_REF_TYPE_NAME),
    ("TYPE_REF_TYPE_NAMESPACE", columns::TYPE_REF_TYPE_NAMESPACE),
    ("TYPE_DEF_FLAGS", columns::TYPE_DEF_FLAGS),
    ("TYPE_DEF_TYPE_NAME", columns::TYPE_DEF_TYPE_NAME),
    ("TYPE_DEF_TYPE_NAMESPACE", columns::TYPE_DEF_TYPE_NAMESPACE),
    ("TYPE_DEF_EXTENDS", columns::TYPE_DEF_EXTENDS),
    ("TYPE_DEF_FIELD_LIST", columns::TYPE_DEF_FIELD_LIST),
    ("TYPE_DEF_METHOD_LIST", columns::TYPE_DEF_METHOD_LIST),
    ("FIELD_FLAGS", columns::FIELD_FLAGS),
    ("FIELD_NAME", columns::FIELD_NAME),
    ("FIELD_SIGNATURE", columns::FIELD_SIGNATURE),
    ("METHOD_DEF_RVA", columns::METHOD_DEF_RVA),
    ("METHOD_DEF_IMPL_FLAGS", columns::METHOD_DEF_IMPL_FLAGS),
    ("METHOD_DEF_FLAGS", columns::METHOD_DEF_FLAGS),
    ("METHOD_DEF_NAME", columns::METHOD_DEF_NAME),
    ("METHOD_DEF_SIGNATURE", columns::METHOD_DEF_SIGNATURE),
    ("METHOD_DEF_PARAM_LIST", columns::METHOD_DEF_PARAM_LIST),
    ("PARAM_FLAGS", columns::PARAM_FLAGS),
    ("PARAM_SEQUENCE", columns::PARAM_SEQUENCE),
    ("PARAM_NAME", columns::PARAM_NAME),
    ("MEMBER_REF_CLASS", columns::MEMBER_REF_CLASS),
    ("MEMBER_REF_NAME", columns::MEMBER_REF_NAME),
    ("MEMBER_REF_SIGNATURE", columns::MEMBER_REF_SIGNATURE),
    ("CUSTOM_ATTRIBUTE_PARENT", columns::CUSTOM_ATTRIBUTE_PARENT),
    ("CUSTOM_ATTRIBUTE_TYPE", columns::CUSTOM_ATTRIBUTE_TYPE),
    ("CUSTOM_ATTRIBUTE_VALUE", columns::CUSTOM_ATTRIBUTE_VALUE),
    (
        "CLASS_LAYOUT_PACKING_SIZE",
        columns::CLASS_LAYOUT_PACKING_SIZE,
    ),
    ("CLASS_LAYOUT_CLASS_SIZE", columns::CLASS_LAYOUT_CLASS_SIZE),
    ("CLASS_LAYOUT_PARENT", columns::CLASS_LAYOUT_PARENT),
    (
        "STAND_ALONE_SIG_SIGNATURE",
        columns::STAND_ALONE_SIG_SIGNATURE,
    ),
    ("EVENT_MAP_PARENT", columns::EVENT_MAP_PARENT),
    ("EVENT_MAP_EVENT_LIST", columns::EVENT_MAP_EVENT_LIST),
    ("EVENT_EVENT_FLAGS", columns::EVENT_EVENT_FLAGS),
    ("EVENT_NAME", columns::EVENT_NAME),
    ("EVENT_EVENT_TYPE", columns::EVENT_EVENT_TYPE),
    ("PROPERTY_MAP_PARENT", columns::PROPERTY_MAP_PARENT),
    (
        "PROPERTY_MAP_PROPERTY_LIST",
        columns::PROPERTY_MAP_PROPERTY_LIST,
    ),
    ("PROPERTY_FLAGS", columns::PROPERTY_FLAGS),
    ("PROPERTY_NAME", columns::PROPERTY_NAME),
    ("PROPERTY_TYPE", columns::PROPERTY_TYPE),
    ("MODULE_REF_NAME", columns::MODULE_REF_NAME),
    ("TYPE_SPEC_SIGNATURE", columns::TYPE_SPEC_SIGNATURE),
    ("FIELD_RVA_RVA", columns::FIELD_RVA_RVA),
    ("FIELD_RVA_FIELD", columns::FIELD_RVA_FIELD),
    ("ENC_LOG_TOKEN", columns::ENC_LOG_TOKEN),
    ("ENC_LOG_FUNC_CODE", columns::ENC_LOG_FUNC_CODE),
    ("ENC_MAP_TOKEN", columns::ENC_MAP_TOKEN),
    ("ASSEMBLY_HASH_ALG_ID", columns::ASSEMBLY_HASH_ALG_ID),
    ("ASSEMBLY_MAJOR_VERSION", columns::ASSEMBLY_MAJOR_VERSION),
    ("ASSEMBLY_MINOR_VERSION", columns::ASSEMBLY_MINOR_VERSION),
    ("ASSEMBLY_BUILD_NUMBER", columns::ASSEMBLY_BUILD_NUMBER),
    (
        "ASSEMBLY_REVISION_NUMBER",
        columns::ASSEMBLY_REVISION_NUMBER,
    ),
    ("ASSEMBLY_FLAGS", columns::ASSEMBLY_FLAGS),
    ("ASSEMBLY_PUBLIC_KEY", columns::ASSEMBLY_PUBLIC_KEY),
    ("ASSEMBLY_NAME", columns::ASSEMBLY_NAME),
    ("ASSEMBLY_CULTURE", columns::ASSEMBLY_CULTURE),
    (
        "ASSEMBLY_REF_MAJOR_VERSION",
        columns::ASSEMBLY_REF_MAJOR_VERSION,
    ),
    (
        "ASSEMBLY_REF_MINOR_VERSION",
        columns::ASSEMBLY_REF_MINOR_VERSION,
    ),
    (
        "ASSEMBLY_REF_BUILD_NUMBER",
        columns::ASSEMBLY_REF_BUILD_NUMBER,
    ),
    (
        "ASSEMBLY_REF_REVISION_NUMBER",
        columns::ASSEMBLY_REF_REVISION_NUMBER,
    ),
    ("ASSEMBLY_REF_FLAGS", columns::ASSEMBLY_REF_FLAGS),
    (
        "ASSEMBLY_REF_PUBLIC_KEY_OR_TOKEN",
        columns::ASSEMBLY_REF_PUBLIC_KEY_OR_TOKEN,
    ),
    ("ASSEMBLY_REF_NAME", columns::ASSEMBLY_REF_NAME),
    ("ASSEMBLY_REF_CULTURE", columns::ASSEMBLY_REF_CULTURE),
    ("ASSEMBLY_REF_HASH_VALUE", columns::ASSEMBLY_REF_HASH_VALUE),
    ("METHOD_SPEC_METHOD", columns::METHOD_SPEC_METHOD),
    (
        "METHOD_SPEC_INSTANTIATION",
        columns::METHOD_SPEC_INSTANTIATION,
    ),
    ("DOCUMENT_NAME", columns::DOCUMENT_NAME),
    ("DOCUMENT_HASH_ALGORITHM", columns::DOCUMENT_HASH_ALGORITHM),
    ("DOCUMENT_HASH", columns::DOCUMENT_HASH),
    ("DOCUMENT_LANGUAGE", columns::DOCUMENT_LANGUAGE),
    (
        "METHOD_DEBUG_INFORMATION_DOCUMENT",
        columns::METHOD_DEBUG_INFORMATION_DOCUMENT,
    ),
    (
        "METHOD_DEBUG_INFORMATION_SEQUENCE_POINTS",
        columns::METHOD_DEBUG_INFORMATION_SEQUENCE_POINTS,
    ),
    ("LOCAL_SCOPE_METHOD", columns::LOCAL_SCOPE_METHOD),
    (
        "LOCAL_SCOPE_IMPORT_SCOPE",
        columns::LOCAL_SCOPE_IMPORT_SCOPE,
    ),
    (
        "LOCAL_SCOPE_VARIABLE_LIST",
        columns::LOCAL_SCOPE_VARIABLE_LIST,
    ),
    (
        "LOCAL_SCOPE_CONSTANT_LIST",
        columns::LOCAL_SCOPE_CONSTANT_LIST,
    ),
    (
        "LOCAL_SCOPE_START_OFFSET",
        columns::LOCAL_SCOPE_START_OFFSET,
    ),
    ("LOCAL_SCOPE_LENGTH", columns::LOCAL_SCOPE_LENGTH),
    (
        "LOCAL_VARIABLE_ATTRIBUTES",
        columns::LOCAL_VARIABLE_ATTRIBUTES,
    ),
    ("LOCAL_VARIABLE_INDEX", columns::LOCAL_VARIABLE_INDEX),
    ("LOCAL_VARIABLE_NAME", columns::LOCAL_VARIABLE_NAME),
    ("LOCAL_CONSTANT_NAME", columns::LOCAL_CONSTANT_NAME),
    (
        "LOCAL_CONSTANT_SIGNATURE",
        columns::LOCAL_CONSTANT_SIGNATURE,
    ),
    ("IMPORT_SCOPE_PARENT", columns::IMPORT_SCOPE_PARENT),
    ("IMPORT_SCOPE_IMPORTS", columns::IMPORT_SCOPE_IMPORTS),
    (
        "STATE_MACHINE_METHOD_MOVE_NEXT_METHOD",
        columns::STATE_MACHINE_METHOD_MOVE_NEXT_METHOD,
    ),
    (
        "STATE_MACHINE_METHOD_KICKOFF_METHOD",
        columns::STATE_MACHINE_METHOD_KICKOFF_METHOD,
    ),
    (
        "CUSTOM_DEBUG_INFORMATION_PARENT",
        columns::CUSTOM_DEBUG_INFORMATION_PARENT,
    ),
    (
        "CUSTOM_DEBUG_INFORMATION_KIND",
        columns::CUSTOM_DEBUG_INFORMATION_KIND,
    ),
    (
        "CUSTOM_DEBUG_INFORMATION_VALUE",
        columns::CUSTOM_DEBUG_INFORMATION_VALUE,
    ),
];

/// The number of this name.
fn named(names: &[(&'static str, u8)], name: &str) -> Option<u8> {
    for (known, number) in names {
        if *known == name {
            return Some(*number);
        }
    }
    None
}

/// The number of a table, for `table_constant NAME`.
fn table(alloc: Global, args: &mut Args<'_>) -> Result<String, Fault> {
    match named(&TABLES, args.word()?) {
        Some(number) => Ok(format!(in alloc; "{number:02x}")?),
        None => Err(Fault::Form),
    }
}

/// The number of a column, for `column_constant NAME`.
fn column(alloc: Global, args: &mut Args<'_>) -> Result<String, Fault> {
    told::or_none(alloc, named(&COLUMNS, args.word()?))
}

/// The answer to a call of this file, None where the call is another.
pub fn answer(alloc: Global, call: &str, args: &mut Args<'_>) -> Result<Option<String>, Fault> {
    Ok(Some(match call {
        "table_constant" => table(alloc, args)?,
        "column_constant" => column(alloc, args)?,
        _ => return Ok(None),
    }))
}
