//! The numbers of result codes and the texts of object identifiers, copied from the RFCs.
use crate::assertions::assert_same;
use ldap_constants::{
    ADMIN_LIMIT_EXCEEDED, ATTRIBUTE_OR_VALUE_EXISTS, AUTH_METHOD_NOT_SUPPORTED, BUSY, CANCEL,
    CANCELED, COMPARE_FALSE, COMPARE_TRUE, CONSTRAINT_VIOLATION, E_SYNC_REFRESH_REQUIRED,
    ENTRY_ALREADY_EXISTS, INSUFFICIENT_ACCESS_RIGHTS, INVALID_ATTRIBUTE_SYNTAX,
    INVALID_CREDENTIALS, INVALID_DN_SYNTAX, MANAGE_DSA_IT, NAMING_VIOLATION, NO_SUCH_ATTRIBUTE,
    NO_SUCH_OBJECT, NO_SUCH_OPERATION, NOT_ALLOWED_ON_NON_LEAF, NOT_ALLOWED_ON_RDN,
    NOTICE_OF_DISCONNECTION, OBJECT_CLASS_VIOLATION, OTHER, PROTOCOL_ERROR, SIZE_LIMIT_EXCEEDED,
    SUCCESS, SYNC_DONE, SYNC_INFO, SYNC_REQUEST, SYNC_STATE, UNAVAILABLE_CRITICAL_EXTENSION,
    UNDEFINED_ATTRIBUTE_TYPE, UNWILLING_TO_PERFORM,
};

/// The enumeration of RFC 4511, section 4.1.9, as far as it is named, the codes of RFC 3909, section
/// 3, and the code of RFC 4533, section 2.6.
const CODES: [(&str, u32, u32); 28] = [
    ("success", SUCCESS, 0),
    ("protocolError", PROTOCOL_ERROR, 2),
    ("sizeLimitExceeded", SIZE_LIMIT_EXCEEDED, 4),
    ("compareFalse", COMPARE_FALSE, 5),
    ("compareTrue", COMPARE_TRUE, 6),
    ("authMethodNotSupported", AUTH_METHOD_NOT_SUPPORTED, 7),
    ("adminLimitExceeded", ADMIN_LIMIT_EXCEEDED, 11),
    (
        "unavailableCriticalExtension",
        UNAVAILABLE_CRITICAL_EXTENSION,
        12,
    ),
    ("noSuchAttribute", NO_SUCH_ATTRIBUTE, 16),
    ("undefinedAttributeType", UNDEFINED_ATTRIBUTE_TYPE, 17),
    ("constraintViolation", CONSTRAINT_VIOLATION, 19),
    ("attributeOrValueExists", ATTRIBUTE_OR_VALUE_EXISTS, 20),
    ("invalidAttributeSyntax", INVALID_ATTRIBUTE_SYNTAX, 21),
    ("noSuchObject", NO_SUCH_OBJECT, 32),
    ("invalidDNSyntax", INVALID_DN_SYNTAX, 34),
    ("invalidCredentials", INVALID_CREDENTIALS, 49),
    ("insufficientAccessRights", INSUFFICIENT_ACCESS_RIGHTS, 50),
    ("busy", BUSY, 51),
    ("unwillingToPerform", UNWILLING_TO_PERFORM, 53),
    ("namingViolation", NAMING_VIOLATION, 64),
    ("objectClassViolation", OBJECT_CLASS_VIOLATION, 65),
    ("notAllowedOnNonLeaf", NOT_ALLOWED_ON_NON_LEAF, 66),
    ("notAllowedOnRDN", NOT_ALLOWED_ON_RDN, 67),
    ("entryAlreadyExists", ENTRY_ALREADY_EXISTS, 68),
    ("other", OTHER, 80),
    ("canceled", CANCELED, 118),
    ("noSuchOperation", NO_SUCH_OPERATION, 119),
    ("e-syncRefreshRequired", E_SYNC_REFRESH_REQUIRED, 4096),
];

#[test]
fn codes_have_their_numbers(rt: HostRuntime) {
    for (name, code, number) in &CODES {
        assert_same(&rt, name, code, number);
    }
}

/// RFC 4533, sections 2.2 to 2.5; RFC 3296, section 3; RFC 3909, section 2.1; RFC 4511, section
/// 4.4.1.
const IDENTIFIERS: [(&str, &[u8], &[u8]); 7] = [
    ("Sync Request", SYNC_REQUEST, b"1.3.6.1.4.1.4203.1.9.1.1"),
    ("Sync State", SYNC_STATE, b"1.3.6.1.4.1.4203.1.9.1.2"),
    ("Sync Done", SYNC_DONE, b"1.3.6.1.4.1.4203.1.9.1.3"),
    ("Sync Info", SYNC_INFO, b"1.3.6.1.4.1.4203.1.9.1.4"),
    ("ManageDsaIT", MANAGE_DSA_IT, b"2.16.840.1.113730.3.4.2"),
    ("Cancel", CANCEL, b"1.3.6.1.1.8"),
    (
        "Notice of Disconnection",
        NOTICE_OF_DISCONNECTION,
        b"1.3.6.1.4.1.1466.20036",
    ),
];

#[test]
fn identifiers_have_their_texts(rt: HostRuntime) {
    for (name, identifier, text) in &IDENTIFIERS {
        assert_same(&rt, name, identifier, text);
    }
}
