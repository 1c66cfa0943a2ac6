//! Messages as bytes in both forms, with what comes of them when one byte is another. The outcomes were worked out from the format by
//! another program.

use wire_form::WireFault;

// Messages of each kind in form 1, the same in form 2, and those that form 2 alone spells; and what comes of each byte set to 00, to 41 and to ff: '=' a message, 'K', 'R' and 'U' a fault
// Kind, Range and Utf8 at this byte, 'S' Short at the end, 'x' what the other table says.
pub static ROWS: [(&str, [&str; 3]); 27] = [
    // a registration
    (
        "02 01 0000000000000002 03",
        ["KR========R", "KR========R", "KR========R"],
    ),
    // an integer
    (
        "04 01 0000000000000002 01 0000000000000005 0000",
        [
            "KR========x==========",
            "KR========K========RS",
            "KR========K========RS",
        ],
    ),
    // an atom
    (
        "03 01 0000000000000002 03 0000000000000001 02 01 61 0000",
        [
            "KR========R========Sx===",
            "KR========R========KS=RS",
            "KR========R========KSURS",
        ],
    ),
    // a record
    (
        "04 02 0000000000000000 03 01 66 02 00 0000000000000001 01 0000000000000004 01 01 61 01 0000000000000005 0000",
        [
            "KR========xx=R=========R========xx=R==========",
            "KR========KS=RK========R========KS=R========RS",
            "KR========KSURK========R========KSUR========RS",
        ],
    ),
    // a spawn with a bundle
    (
        "01 01 0000000000000000 00000102 0002 01 0000000000000007 02 0000000000000008 0002 01 0000000000000003 00 01 0000000000000001 01 0000000000000004 01 fffffffffffffffe",
        [
            "KR=============xR========R=========xR=========R========R=======xx========",
            "KR============xxR========R========RSRxxxxxxxxKR========R========K========",
            "KR============xxR========R========RSRxxxxxxxxKR========R========K========",
        ],
    ),
    // a procedure
    (
        "04 01 0000000000000002 04 01 0000000000000006 00000009 01 0001 01 0000000000000007 0000",
        [
            "KR========xR==============xR==========",
            "KR========KR============RxxR========RS",
            "KR========KR============RxxR========RS",
        ],
    ),
    // a get
    (
        "05 40 0000000000000001 02",
        ["KR========R", "KR========R", "KR========R"],
    ),
    // a forward
    (
        "06 40 0000000000000001 02",
        ["KR========R", "KR========R", "KR========R"],
    ),
    // a put with a cell
    (
        "07 40 0000000000000001 01 0000000000000002 0001 01 0000000000000003 05 40 0000000000000009",
        [
            "KR========R=========xR=========R========",
            "KR========R========RSR========KR========",
            "KR========R========RSR========KR========",
        ],
    ),
    // a registration in form 2
    (
        "12 01 0000000000000002 03",
        ["KR========R", "KR========R", "KR========R"],
    ),
    // an integer in form 2
    (
        "14 01 0000000000000002 01 00000000000000000000000000000005 0000",
        [
            "KR========x==================",
            "KR========K================RS",
            "KR========K================RS",
        ],
    ),
    // an atom in form 2
    (
        "13 01 0000000000000002 03 0000000000000001 02 01 61 0000",
        [
            "KR========R========Sx===",
            "KR========R========KS=RS",
            "KR========R========KSURS",
        ],
    ),
    // a record in form 2
    (
        "14 02 0000000000000000 03 01 66 02 00 00000000000000000000000000000001 01 0000000000000004 01 01 61 01 0000000000000005 0000",
        [
            "KR========xx=R=================R========Sx=R==========",
            "KR========KS=RK================R========KS=R========RS",
            "KR========KSURK================R========KSUR========RS",
        ],
    ),
    // a spawn with a bundle in form 2
    (
        "11 01 0000000000000000 00000102 0002 01 0000000000000007 02 0000000000000008 0002 01 0000000000000003 00 01 0000000000000001 01 0000000000000004 01 fffffffffffffffffffffffffffffffe",
        [
            "KR=============xR========R=========xR=========R========R=======xx================",
            "KR============xxR========R========RSRxxxxxxxxKR========R========K================",
            "KR============xxR========R========RSRxxxxxxxxKR========R========K================",
        ],
    ),
    // a procedure in form 2
    (
        "14 01 0000000000000002 04 01 0000000000000006 00000009 01 0001 01 0000000000000007 0000",
        [
            "KR========xR==============xR==========",
            "KR========KR============RxxR========RS",
            "KR========KR============RxxR========RS",
        ],
    ),
    // a get in form 2
    (
        "15 40 0000000000000001 02",
        ["KR========R", "KR========R", "KR========R"],
    ),
    // a forward in form 2
    (
        "16 40 0000000000000001 02",
        ["KR========R", "KR========R", "KR========R"],
    ),
    // a put with a cell in form 2
    (
        "17 40 0000000000000001 01 0000000000000002 0001 01 0000000000000003 05 40 0000000000000009",
        [
            "KR========R=========xR=========R========",
            "KR========R========RSR========KR========",
            "KR========R========RSR========KR========",
        ],
    ),
    // an integer of more than 64 bits
    (
        "14 01 0000000000000002 01 00000000000000010000000000000005 0000",
        [
            "KR========x==================",
            "KR========K================RS",
            "KR========K================RS",
        ],
    ),
    // the least and the greatest integer as features
    (
        "14 02 0000000000000000 03 01 66 02 00 80000000000000000000000000000000 01 0000000000000004 00 7fffffffffffffffffffffffffffffff 01 0000000000000005 0000",
        [
            "KR========xx=R=================R=========================R==========",
            "KR========KS=RK================R========K================R========RS",
            "KR========KSURK================R========K================R========RS",
        ],
    ),
    // a port as a value
    (
        "14 01 0000000000000002 06 01 0000000000000003 0000",
        [
            "KR=========R==========",
            "KR========KR========RS",
            "KR========KR========RS",
        ],
    ),
    // a stationary cell as a value
    (
        "14 01 0000000000000002 07 02 0000000000000006 03 0000",
        [
            "KR========xR========R==",
            "KR========KR========RRS",
            "KR========KR========RRS",
        ],
    ),
    // a send to a port
    (
        "18 01 0000000000000003 04 0000000000000002 04",
        [
            "KR========R========R",
            "KR========R========R",
            "KR========R========R",
        ],
    ),
    // the ends of a port, with what is known of one
    (
        "19 04 0000000000000002 02 0000000000000005 01 0000000000000007 0001 02 0000000000000005 02 01 61",
        [
            "KR========R========R=========xR========Sx=",
            "KR========R========R========RSR========KS=",
            "KR========R========R========RSR========KSU",
        ],
    ),
    // a new stationary cell
    (
        "1a 02 0000000000000006 03 02 0000000000000001 0000",
        [
            "KR========RR==========",
            "KR========RR========RS",
            "KR========RR========RS",
        ],
    ),
    // a request to the home of a cell
    (
        "1b 02 0000000000000006 03 04 0000000000000001 04 04 0000000000000009 0000",
        [
            "KR========RR========RR==========",
            "KR========RR========RR========RS",
            "KR========RR========RR========RS",
        ],
    ),
    // the old content of a cell
    (
        "1c 04 0000000000000001 02 0000000000000001 0000",
        [
            "KR========R==========",
            "KR========R========RS",
            "KR========R========RS",
        ],
    ),
];

// The row, the first and the last byte, the value, and the fault.
pub static OTHERS: [(usize, usize, usize, u8, WireFault); 43] = [
    (1, 10, 10, 0x00, WireFault::Range(11)),
    (2, 20, 20, 0x00, WireFault::Range(21)),
    (3, 10, 10, 0x00, WireFault::Rest(22)),
    (3, 11, 11, 0x00, WireFault::Range(12)),
    (3, 32, 32, 0x00, WireFault::Range(41)),
    (3, 33, 33, 0x00, WireFault::Range(34)),
    (4, 15, 15, 0x00, WireFault::Range(18)),
    (4, 35, 35, 0x00, WireFault::Rest(36)),
    (4, 63, 63, 0x00, WireFault::Order(55)),
    (4, 64, 64, 0x00, WireFault::Range(65)),
    (4, 14, 15, 0x41, WireFault::Range(34)),
    (4, 37, 44, 0x41, WireFault::Order(55)),
    (4, 14, 15, 0xff, WireFault::Range(34)),
    (4, 37, 44, 0xff, WireFault::Order(55)),
    (5, 10, 10, 0x00, WireFault::Rest(22)),
    (5, 26, 26, 0x00, WireFault::Range(29)),
    (5, 25, 26, 0x41, WireFault::Range(36)),
    (5, 25, 26, 0xff, WireFault::Range(36)),
    (8, 20, 20, 0x00, WireFault::Rest(21)),
    (10, 10, 10, 0x00, WireFault::Range(11)),
    (11, 20, 20, 0x00, WireFault::Range(21)),
    (12, 10, 10, 0x00, WireFault::Rest(22)),
    (12, 11, 11, 0x00, WireFault::Range(12)),
    (12, 41, 41, 0x00, WireFault::Range(42)),
    (13, 15, 15, 0x00, WireFault::Range(18)),
    (13, 35, 35, 0x00, WireFault::Rest(36)),
    (13, 63, 63, 0x00, WireFault::Order(55)),
    (13, 64, 64, 0x00, WireFault::Range(65)),
    (13, 14, 15, 0x41, WireFault::Range(34)),
    (13, 37, 44, 0x41, WireFault::Order(55)),
    (13, 14, 15, 0xff, WireFault::Range(34)),
    (13, 37, 44, 0xff, WireFault::Order(55)),
    (14, 10, 10, 0x00, WireFault::Rest(22)),
    (14, 26, 26, 0x00, WireFault::Range(29)),
    (14, 25, 26, 0x41, WireFault::Range(36)),
    (14, 25, 26, 0xff, WireFault::Range(36)),
    (17, 20, 20, 0x00, WireFault::Rest(21)),
    (18, 10, 10, 0x00, WireFault::Range(11)),
    (19, 10, 10, 0x00, WireFault::Rest(22)),
    (19, 11, 11, 0x00, WireFault::Range(12)),
    (21, 10, 10, 0x00, WireFault::Range(20)),
    (23, 29, 29, 0x00, WireFault::Rest(30)),
    (23, 40, 40, 0x00, WireFault::Rest(41)),
];

// Texts that spell no message, with their faults.
pub static OTHER_TEXTS: [(&str, WireFault); 22] = [
    ("", WireFault::Short(0)),
    ("08", WireFault::Kind(0)),
    // the fields of a record exchanged, and one feature twice
    (
        "04 02 0000000000000000 03 01 66 02 01 01 61 01 0000000000000005 00 0000000000000001 01 0000000000000004 0000",
        WireFault::Order(26),
    ),
    (
        "04 02 0000000000000000 03 01 66 02 01 01 61 01 0000000000000005 01 01 61 01 0000000000000005 0000",
        WireFault::Order(26),
    ),
    // the names of a bundle exchanged, one name twice, and an unknown site before its order
    (
        "07 01 0000000000000000 01 0000000000000001 0002 01 0000000000000003 00 01 0000000000000001 01 0000000000000002 00 01 0000000000000001",
        WireFault::Order(40),
    ),
    (
        "07 01 0000000000000000 01 0000000000000001 0002 01 0000000000000003 00 01 0000000000000001 01 0000000000000003 00 01 0000000000000001",
        WireFault::Order(40),
    ),
    (
        "07 01 0000000000000000 01 0000000000000001 0002 01 0000000000000003 00 01 0000000000000001 00 0000000000000002 00 01 0000000000000001",
        WireFault::Range(40),
    ),
    // counts that promise more than stands: names, equations and the bytes of a text that is no UTF-8
    (
        "01 01 0000000000000000 00000000 ffff 01 0000000000000001",
        WireFault::Short(25),
    ),
    (
        "07 01 0000000000000000 01 0000000000000001 0100",
        WireFault::Short(21),
    ),
    (
        "07 01 0000000000000000 01 0000000000000001 0101",
        WireFault::Range(19),
    ),
    ("04 01 0000000000000002 02 02 ff", WireFault::Short(13)),
    // an integer of form 1 in form 2, one of form 2 in form 1, and so for features
    (
        "14 01 0000000000000002 01 0000000000000005 0000",
        WireFault::Short(21),
    ),
    (
        "04 01 0000000000000002 01 00000000000000000000000000000005 0000",
        WireFault::Rest(21),
    ),
    (
        "14 02 0000000000000000 03 01 66 01 00 0000000000000001 01 0000000000000004 0000",
        WireFault::Short(34),
    ),
    (
        "04 02 0000000000000000 03 01 66 01 00 00000000000000000000000000000001 01 0000000000000004 0000",
        WireFault::Range(23),
    ),
    // the fields of a record exchanged, and the names of a bundle, in form 2
    (
        "14 02 0000000000000000 03 01 66 02 01 01 61 01 0000000000000005 00 00000000000000000000000000000001 01 0000000000000004 0000",
        WireFault::Order(26),
    ),
    (
        "17 01 0000000000000000 01 0000000000000001 0002 01 0000000000000003 00 01 0000000000000001 01 0000000000000002 00 01 0000000000000001",
        WireFault::Order(40),
    ),
    // a port in form 1, and a stationary cell in form 1
    (
        "04 01 0000000000000002 06 01 0000000000000003 0000",
        WireFault::Kind(10),
    ),
    (
        "04 01 0000000000000002 07 02 0000000000000006 03 0000",
        WireFault::Kind(10),
    ),
    // a home that is no site
    (
        "14 01 0000000000000002 07 02 0000000000000006 00 0000",
        WireFault::Range(20),
    ),
    (
        "1a 02 0000000000000006 41 02 0000000000000001 0000",
        WireFault::Range(10),
    ),
    // a stationary cell without its home
    ("1b 02 0000000000000006", WireFault::Short(10)),
];

// Bytes that are kinds of neither form, before the fields of a registration.
pub static NO_KINDS: [u8; 13] = [
    0x00, 0x08, 0x09, 0x0a, 0x0b, 0x0c, 0x0d, 0x0e, 0x0f, 0x10, 0x1d, 0x1e, 0x1f,
];
