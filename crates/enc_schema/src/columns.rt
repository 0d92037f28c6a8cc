//! The numbers of columns in their tables, from 0, in the names of the standard (ECMA-335 II.22;
//! Portable PDB).

pub const MODULE_GENERATION: u8 = 0;

pub const MODULE_NAME: u8 = 1;

pub const MODULE_MVID: u8 = 2;

pub const MODULE_ENC_ID: u8 = 3;

pub const MODULE_ENC_BASE_ID: u8 = 4;

pub const TYPE_REF_RESOLUTION_SCOPE: u8 = 0;

pub const TYPE_REF_TYPE_NAME: u8 = 1;

pub const TYPE_REF_TYPE_NAMESPACE: u8 = 2;

pub const TYPE_DEF_FLAGS: u8 = 0;

pub const TYPE_DEF_TYPE_NAME: u8 = 1;

pub const TYPE_DEF_TYPE_NAMESPACE: u8 = 2;

pub const TYPE_DEF_EXTENDS: u8 = 3;

pub const TYPE_DEF_FIELD_LIST: u8 = 4;

pub const TYPE_DEF_METHOD_LIST: u8 = 5;

pub const FIELD_FLAGS: u8 = 0;

pub const FIELD_NAME: u8 = 1;

pub const FIELD_SIGNATURE: u8 = 2;

pub const METHOD_DEF_RVA: u8 = 0;

pub const METHOD_DEF_IMPL_FLAGS: u8 = 1;

pub const METHOD_DEF_FLAGS: u8 = 2;

pub const METHOD_DEF_NAME: u8 = 3;

pub const METHOD_DEF_SIGNATURE: u8 = 4;

pub const METHOD_DEF_PARAM_LIST: u8 = 5;

pub const PARAM_FLAGS: u8 = 0;

pub const PARAM_SEQUENCE: u8 = 1;

pub const PARAM_NAME: u8 = 2;

pub const MEMBER_REF_CLASS: u8 = 0;

pub const MEMBER_REF_NAME: u8 = 1;

pub const MEMBER_REF_SIGNATURE: u8 = 2;

pub const CUSTOM_ATTRIBUTE_PARENT: u8 = 0;

pub const CUSTOM_ATTRIBUTE_TYPE: u8 = 1;

pub const CUSTOM_ATTRIBUTE_VALUE: u8 = 2;

pub const CLASS_LAYOUT_PACKING_SIZE: u8 = 0;

pub const CLASS_LAYOUT_CLASS_SIZE: u8 = 1;

pub const CLASS_LAYOUT_PARENT: u8 = 2;

pub const STAND_ALONE_SIG_SIGNATURE: u8 = 0;

pub const EVENT_MAP_PARENT: u8 = 0;

pub const EVENT_MAP_EVENT_LIST: u8 = 1;

pub const EVENT_EVENT_FLAGS: u8 = 0;

pub const EVENT_NAME: u8 = 1;

pub const EVENT_EVENT_TYPE: u8 = 2;

pub const PROPERTY_MAP_PARENT: u8 = 0;

pub const PROPERTY_MAP_PROPERTY_LIST: u8 = 1;

pub const PROPERTY_FLAGS: u8 = 0;

pub const PROPERTY_NAME: u8 = 1;

pub const PROPERTY_TYPE: u8 = 2;

pub const MODULE_REF_NAME: u8 = 0;

pub const TYPE_SPEC_SIGNATURE: u8 = 0;

pub const FIELD_RVA_RVA: u8 = 0;

pub const FIELD_RVA_FIELD: u8 = 1;

pub const ENC_LOG_TOKEN: u8 = 0;

pub const ENC_LOG_FUNC_CODE: u8 = 1;

pub const ENC_MAP_TOKEN: u8 = 0;

pub const ASSEMBLY_HASH_ALG_ID: u8 = 0;

pub const ASSEMBLY_MAJOR_VERSION: u8 = 1;

pub const ASSEMBLY_MINOR_VERSION: u8 = 2;

pub const ASSEMBLY_BUILD_NUMBER: u8 = 3;

pub const ASSEMBLY_REVISION_NUMBER: u8 = 4;

pub const ASSEMBLY_FLAGS: u8 = 5;

pub const ASSEMBLY_PUBLIC_KEY: u8 = 6;

pub const ASSEMBLY_NAME: u8 = 7;

pub const ASSEMBLY_CULTURE: u8 = 8;

pub const ASSEMBLY_REF_MAJOR_VERSION: u8 = 0;

pub const ASSEMBLY_REF_MINOR_VERSION: u8 = 1;

pub const ASSEMBLY_REF_BUILD_NUMBER: u8 = 2;

pub const ASSEMBLY_REF_REVISION_NUMBER: u8 = 3;

pub const ASSEMBLY_REF_FLAGS: u8 = 4;

pub const ASSEMBLY_REF_PUBLIC_KEY_OR_TOKEN: u8 = 5;

pub const ASSEMBLY_REF_NAME: u8 = 6;

pub const ASSEMBLY_REF_CULTURE: u8 = 7;

pub const ASSEMBLY_REF_HASH_VALUE: u8 = 8;

pub const METHOD_SPEC_METHOD: u8 = 0;

pub const METHOD_SPEC_INSTANTIATION: u8 = 1;

pub const DOCUMENT_NAME: u8 = 0;

pub const DOCUMENT_HASH_ALGORITHM: u8 = 1;

pub const DOCUMENT_HASH: u8 = 2;

pub const DOCUMENT_LANGUAGE: u8 = 3;

pub const METHOD_DEBUG_INFORMATION_DOCUMENT: u8 = 0;

pub const METHOD_DEBUG_INFORMATION_SEQUENCE_POINTS: u8 = 1;

pub const LOCAL_SCOPE_METHOD: u8 = 0;

pub const LOCAL_SCOPE_IMPORT_SCOPE: u8 = 1;

pub const LOCAL_SCOPE_VARIABLE_LIST: u8 = 2;

pub const LOCAL_SCOPE_CONSTANT_LIST: u8 = 3;

pub const LOCAL_SCOPE_START_OFFSET: u8 = 4;

pub const LOCAL_SCOPE_LENGTH: u8 = 5;

pub const LOCAL_VARIABLE_ATTRIBUTES: u8 = 0;

pub const LOCAL_VARIABLE_INDEX: u8 = 1;

pub const LOCAL_VARIABLE_NAME: u8 = 2;

pub const LOCAL_CONSTANT_NAME: u8 = 0;

pub const LOCAL_CONSTANT_SIGNATURE: u8 = 1;

pub const IMPORT_SCOPE_PARENT: u8 = 0;

pub const IMPORT_SCOPE_IMPORTS: u8 = 1;

pub const STATE_MACHINE_METHOD_MOVE_NEXT_METHOD: u8 = 0;

pub const STATE_MACHINE_METHOD_KICKOFF_METHOD: u8 = 1;

pub const CUSTOM_DEBUG_INFORMATION_PARENT: u8 = 0;

pub const CUSTOM_DEBUG_INFORMATION_KIND: u8 = 1;

pub const CUSTOM_DEBUG_INFORMATION_VALUE: u8 = 2;
