//! The names of the capabilities: in the order of the compiled entry, and by name.

/// How many booleans there are.
pub const FLAG_COUNT: usize = 44;

/// How many numbers there are.
pub const NUMBER_COUNT: usize = 39;

/// How many strings there are.
pub const TEXT_COUNT: usize = 414;

/// How many capabilities there are of all kinds.
pub const CAPABILITY_COUNT: usize = FLAG_COUNT + NUMBER_COUNT + TEXT_COUNT;

/// The names of the booleans, by index.
pub static FLAGS: [&str; FLAG_COUNT] = [
    "bw", "am", "xsb", "xhp", "xenl", "eo", "gn", "hc", "km", "hs", "in", "da", "db", "mir",
    "msgr", "os", "eslok", "xt", "hz", "ul", "xon", "nxon", "mc5i", "chts", "nrrmc", "npc",
    "ndscr", "ccc", "bce", "hls", "xhpa", "crxm", "daisy", "xvpa", "sam", "cpix", "lpix", "OTbs",
    "OTns", "OTnc", "OTMT", "OTNL", "OTpt", "OTxr",
];

/// The names of the numbers, by index.
pub static NUMBERS: [&str; NUMBER_COUNT] = [
    "cols", "it", "lines", "lm", "xmc", "pb", "vt", "wsl", "nlab", "lh", "lw", "ma", "wnum",
    "colors", "pairs", "ncv", "bufsz", "spinv", "spinh", "maddr", "mjump", "mcs", "mls", "npins",
    "orc", "orl", "orhi", "orvi", "cps", "widcs", "btns", "bitwin", "bitype", "OTug", "OTdC",
    "OTdN", "OTdB", "OTdT", "OTkn",
];

/// The names of the strings, by index.
pub static TEXTS: [&str; TEXT_COUNT] = [
    "cbt", "bel", "cr", "csr", "tbc", "clear", "el", "ed", "hpa", "cmdch", "cup", "cud1", "home",
    "civis", "cub1", "mrcup", "cnorm", "cuf1", "ll", "cuu1", "cvvis", "dch1", "dl1", "dsl", "hd",
    "smacs", "blink", "bold", "smcup", "smdc", "dim", "smir", "invis", "prot", "rev", "smso",
    "smul", "ech", "rmacs", "sgr0", "rmcup", "rmdc", "rmir", "rmso", "rmul", "flash", "ff", "fsl",
    "is1", "is2", "is3", "if", "ich1", "il1", "ip", "kbs", "ktbc", "kclr", "kctab", "kdch1",
    "kdl1", "kcud1", "krmir", "kel", "ked", "kf0", "kf1", "kf10", "kf2", "kf3", "kf4", "kf5",
    "kf6", "kf7", "kf8", "kf9", "khome", "kich1", "kil1", "kcub1", "kll", "knp", "kpp", "kcuf1",
    "kind", "kri", "khts", "kcuu1", "rmkx", "smkx", "lf0", "lf1", "lf10", "lf2", "lf3", "lf4",
    "lf5", "lf6", "lf7", "lf8", "lf9", "rmm", "smm", "nel", "pad", "dch", "dl", "cud", "ich",
    "indn", "il", "cub", "cuf", "rin", "cuu", "pfkey", "pfloc", "pfx", "mc0", "mc4", "mc5", "rep",
    "rs1", "rs2", "rs3", "rf", "rc", "vpa", "sc", "ind", "ri", "sgr", "hts", "wind", "ht", "tsl",
    "uc", "hu", "iprog", "ka1", "ka3", "kb2", "kc1", "kc3", "mc5p", "rmp", "acsc", "pln", "kcbt",
    "smxon", "rmxon", "smam", "rmam", "xonc", "xoffc", "enacs", "smln", "rmln", "kbeg", "kcan",
    "kclo", "kcmd", "kcpy", "kcrt", "kend", "kent", "kext", "kfnd", "khlp", "kmrk", "kmsg", "kmov",
    "knxt", "kopn", "kopt", "kprv", "kprt", "krdo", "kref", "krfr", "krpl", "krst", "kres", "ksav",
    "kspd", "kund", "kBEG", "kCAN", "kCMD", "kCPY", "kCRT", "kDC", "kDL", "kslt", "kEND", "kEOL",
    "kEXT", "kFND", "kHLP", "kHOM", "kIC", "kLFT", "kMSG", "kMOV", "kNXT", "kOPT", "kPRV", "kPRT",
    "kRDO", "kRPL", "kRIT", "kRES", "kSAV", "kSPD", "kUND", "rfi", "kf11", "kf12", "kf13", "kf14",
    "kf15", "kf16", "kf17", "kf18", "kf19", "kf20", "kf21", "kf22", "kf23", "kf24", "kf25", "kf26",
    "kf27", "kf28", "kf29", "kf30", "kf31", "kf32", "kf33", "kf34", "kf35", "kf36", "kf37", "kf38",
    "kf39", "kf40", "kf41", "kf42", "kf43", "kf44", "kf45", "kf46", "kf47", "kf48", "kf49", "kf50",
    "kf51", "kf52", "kf53", "kf54", "kf55", "kf56", "kf57", "kf58", "kf59", "kf60", "kf61", "kf62",
    "kf63", "el1", "mgc", "smgl", "smgr", "fln", "sclk", "dclk", "rmclk", "cwin", "wingo", "hup",
    "dial", "qdial", "tone", "pulse", "hook", "pause", "wait", "u0", "u1", "u2", "u3", "u4", "u5",
    "u6", "u7", "u8", "u9", "op", "oc", "initc", "initp", "scp", "setf", "setb", "cpi", "lpi",
    "chr", "cvr", "defc", "swidm", "sdrfq", "sitm", "slm", "smicm", "snlq", "snrmq", "sshm",
    "ssubm", "ssupm", "sum", "rwidm", "ritm", "rlm", "rmicm", "rshm", "rsubm", "rsupm", "rum",
    "mhpa", "mcud1", "mcub1", "mcuf1", "mvpa", "mcuu1", "porder", "mcud", "mcub", "mcuf", "mcuu",
    "scs", "smgb", "smgbp", "smglp", "smgrp", "smgt", "smgtp", "sbim", "scsd", "rbim", "rcsd",
    "subcs", "supcs", "docr", "zerom", "csnm", "kmous", "minfo", "reqmp", "getm", "setaf", "setab",
    "pfxl", "devt", "csin", "s0ds", "s1ds", "s2ds", "s3ds", "smglr", "smgtb", "birep", "binel",
    "bicr", "colornm", "defbi", "endbi", "setcolor", "slines", "dispc", "smpch", "rmpch", "smsc",
    "rmsc", "pctrm", "scesc", "scesa", "ehhlm", "elhlm", "elohlm", "erhlm", "ethlm", "evhlm",
    "sgr1", "slength", "OTi2", "OTrs", "OTnl", "OTbc", "OTko", "OTma", "OTG2", "OTG3", "OTG1",
    "OTG4", "OTGR", "OTGL", "OTGU", "OTGD", "OTGH", "OTGV", "OTGC", "meml", "memu", "box1",
];

/// Every capability, in the order of the bytes of the names, by its number: all of them are counted
/// from 0, the booleans first, then the numbers, then the strings, each kind in the order of its
/// list.
pub static BY_NAME: [u16; CAPABILITY_COUNT] = [
    485, 483, 484, 486, 493, 490, 491, 488, 487, 489, 492, 40, 41, 480, 37, 80, 78, 79, 81, 477,
    82, 481, 482, 39, 479, 38, 42, 478, 77, 43, 229, 1, 28, 84, 455, 454, 453, 75, 76, 109, 110,
    496, 74, 60, 0, 83, 27, 389, 23, 96, 88, 92, 99, 456, 57, 44, 387, 35, 72, 85, 31, 446, 437,
    86, 194, 97, 190, 94, 195, 100, 93, 197, 102, 390, 103, 360, 11, 32, 12, 188, 104, 358, 457,
    391, 445, 363, 113, 461, 189, 105, 435, 106, 120, 90, 469, 89, 352, 470, 471, 238, 458, 5, 472,
    16, 473, 474, 129, 128, 356, 130, 441, 6, 7, 107, 29, 95, 367, 91, 9, 217, 215, 220, 362, 18,
    191, 135, 134, 193, 136, 10, 212, 192, 382, 383, 115, 137, 221, 131, 132, 133, 45, 269, 270,
    271, 272, 273, 274, 275, 277, 278, 279, 280, 281, 282, 283, 284, 286, 285, 287, 288, 290, 289,
    291, 294, 293, 292, 295, 296, 297, 222, 223, 224, 241, 138, 225, 226, 242, 231, 243, 140, 244,
    245, 246, 141, 162, 144, 166, 170, 142, 143, 147, 146, 247, 248, 249, 148, 149, 150, 299, 300,
    301, 302, 303, 304, 305, 306, 307, 151, 308, 309, 310, 311, 312, 313, 314, 315, 316, 317, 152,
    318, 319, 320, 321, 322, 323, 324, 325, 326, 327, 153, 328, 329, 330, 331, 332, 333, 334, 335,
    336, 337, 154, 338, 339, 340, 341, 342, 343, 344, 345, 346, 347, 155, 348, 349, 350, 351, 156,
    157, 158, 250, 251, 159, 169, 160, 161, 167, 163, 8, 438, 254, 252, 253, 164, 255, 256, 257,
    165, 259, 258, 260, 261, 265, 262, 168, 145, 263, 264, 266, 276, 267, 139, 268, 173, 174, 175,
    176, 177, 178, 179, 180, 181, 182, 183, 53, 46, 101, 47, 388, 36, 54, 55, 63, 201, 202, 203,
    22, 227, 65, 419, 413, 418, 412, 420, 414, 421, 416, 494, 495, 353, 411, 439, 13, 64, 66, 98,
    14, 415, 59, 26, 186, 52, 25, 67, 24, 21, 381, 380, 68, 70, 69, 71, 15, 187, 58, 368, 49, 466,
    198, 199, 200, 444, 230, 417, 116, 366, 364, 431, 209, 432, 204, 440, 117, 208, 298, 213, 196,
    404, 405, 121, 235, 359, 123, 124, 406, 125, 171, 240, 184, 228, 463, 465, 126, 127, 233, 205,
    206, 207, 407, 408, 409, 410, 403, 447, 448, 449, 450, 34, 429, 211, 468, 467, 357, 384, 422,
    430, 393, 443, 442, 386, 459, 385, 214, 122, 475, 394, 476, 460, 395, 108, 234, 111, 112, 423,
    424, 354, 425, 451, 355, 426, 427, 452, 428, 396, 114, 172, 239, 185, 462, 464, 118, 119, 232,
    397, 398, 62, 61, 399, 400, 401, 433, 402, 434, 392, 87, 365, 218, 370, 371, 372, 373, 374,
    375, 376, 377, 378, 379, 219, 19, 210, 50, 369, 73, 216, 361, 56, 51, 4, 3, 30, 48, 237, 20,
    236, 2, 17, 33, 436,
];
