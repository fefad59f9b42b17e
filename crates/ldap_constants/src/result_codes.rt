//! Result codes (RFC 4511, section 4.1.9 and appendix A.2; RFC 3909, section 3; RFC 4533, section
//! 2.6).

/// success (RFC 4511, appendix A.2).
pub const SUCCESS: u32 = 0;

/// protocolError (RFC 4511, appendix A.2).
pub const PROTOCOL_ERROR: u32 = 2;

/// sizeLimitExceeded (RFC 4511, appendix A.2).
pub const SIZE_LIMIT_EXCEEDED: u32 = 4;

/// compareFalse (RFC 4511, appendix A.2).
pub const COMPARE_FALSE: u32 = 5;

/// compareTrue (RFC 4511, appendix A.2).
pub const COMPARE_TRUE: u32 = 6;

/// authMethodNotSupported (RFC 4511, appendix A.2).
pub const AUTH_METHOD_NOT_SUPPORTED: u32 = 7;

/// adminLimitExceeded (RFC 4511, appendix A.2).
pub const ADMIN_LIMIT_EXCEEDED: u32 = 11;

/// unavailableCriticalExtension (RFC 4511, appendix A.2).
pub const UNAVAILABLE_CRITICAL_EXTENSION: u32 = 12;

/// noSuchAttribute (RFC 4511, appendix A.2).
pub const NO_SUCH_ATTRIBUTE: u32 = 16;

/// undefinedAttributeType (RFC 4511, appendix A.2).
pub const UNDEFINED_ATTRIBUTE_TYPE: u32 = 17;

/// constraintViolation (RFC 4511, appendix A.2).
pub const CONSTRAINT_VIOLATION: u32 = 19;

/// attributeOrValueExists (RFC 4511, appendix A.2).
pub const ATTRIBUTE_OR_VALUE_EXISTS: u32 = 20;

/// invalidAttributeSyntax (RFC 4511, appendix A.2).
pub const INVALID_ATTRIBUTE_SYNTAX: u32 = 21;

/// noSuchObject (RFC 4511, appendix A.2).
pub const NO_SUCH_OBJECT: u32 = 32;

/// invalidDNSyntax (RFC 4511, appendix A.2).
pub const INVALID_DN_SYNTAX: u32 = 34;

/// invalidCredentials (RFC 4511, appendix A.2).
pub const INVALID_CREDENTIALS: u32 = 49;

/// insufficientAccessRights (RFC 4511, appendix A.2).
pub const INSUFFICIENT_ACCESS_RIGHTS: u32 = 50;

/// busy (RFC 4511, appendix A.2).
pub const BUSY: u32 = 51;

/// unwillingToPerform (RFC 4511, appendix A.2).
pub const UNWILLING_TO_PERFORM: u32 = 53;

/// namingViolation (RFC 4511, appendix A.2).
pub const NAMING_VIOLATION: u32 = 64;

/// objectClassViolation (RFC 4511, appendix A.2).
pub const OBJECT_CLASS_VIOLATION: u32 = 65;

/// notAllowedOnNonLeaf (RFC 4511, appendix A.2).
pub const NOT_ALLOWED_ON_NON_LEAF: u32 = 66;

/// notAllowedOnRDN (RFC 4511, appendix A.2).
pub const NOT_ALLOWED_ON_RDN: u32 = 67;

/// entryAlreadyExists (RFC 4511, appendix A.2).
pub const ENTRY_ALREADY_EXISTS: u32 = 68;

/// other (RFC 4511, appendix A.2).
pub const OTHER: u32 = 80;

/// canceled (RFC 3909, section 3).
pub const CANCELED: u32 = 118;

/// noSuchOperation (RFC 3909, section 3).
pub const NO_SUCH_OPERATION: u32 = 119;

/// e-syncRefreshRequired (RFC 4533, section 2.6).
pub const E_SYNC_REFRESH_REQUIRED: u32 = 4096;
