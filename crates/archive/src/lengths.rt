// The lengths of blocks.
ghost use Rattle.std.specs.Prelude.{◌≡◌, ◌<◌};
ghost use Rattle.archive.specs.Lengths.{listed_length, length_listed, length_right};

// By looks and puts, 0 to 16 each: the place 17 r + p has the length of a block of r looks and p puts.
const LENGTHS: [usize; 289] = [
    16, 30, 44, 58, 72, 86, 100, 114, 128, 142, 156, 170, 184, 198, 212, 226, 240, 38, 52, 66, 80,
    94, 108, 122, 136, 150, 164, 178, 192, 206, 220, 234, 248, 262, 60, 74, 88, 102, 116, 130, 144,
    158, 172, 186, 200, 214, 228, 242, 256, 270, 284, 82, 96, 110, 124, 138, 152, 166, 180, 194,
    208, 222, 236, 250, 264, 278, 292, 306, 104, 118, 132, 146, 160, 174, 188, 202, 216, 230, 244,
    258, 272, 286, 300, 314, 328, 126, 140, 154, 168, 182, 196, 210, 224, 238, 252, 266, 280, 294,
    308, 322, 336, 350, 148, 162, 176, 190, 204, 218, 232, 246, 260, 274, 288, 302, 316, 330, 344,
    358, 372, 170, 184, 198, 212, 226, 240, 254, 268, 282, 296, 310, 324, 338, 352, 366, 380, 394,
    192, 206, 220, 234, 248, 262, 276, 290, 304, 318, 332, 346, 360, 374, 388, 402, 416, 214, 228,
    242, 256, 270, 284, 298, 312, 326, 340, 354, 368, 382, 396, 410, 424, 438, 236, 250, 264, 278,
    292, 306, 320, 334, 348, 362, 376, 390, 404, 418, 432, 446, 460, 258, 272, 286, 300, 314, 328,
    342, 356, 370, 384, 398, 412, 426, 440, 454, 468, 482, 280, 294, 308, 322, 336, 350, 364, 378,
    392, 406, 420, 434, 448, 462, 476, 490, 504, 302, 316, 330, 344, 358, 372, 386, 400, 414, 428,
    442, 456, 470, 484, 498, 512, 526, 324, 338, 352, 366, 380, 394, 408, 422, 436, 450, 464, 478,
    492, 506, 520, 534, 548, 346, 360, 374, 388, 402, 416, 430, 444, 458, 472, 486, 500, 514, 528,
    542, 556, 570, 368, 382, 396, 410, 424, 438, 452, 466, 480, 494, 508, 522, 536, 550, 564, 578,
    592,
];

// The length at a place of the table.
fn listed(place: usize) -> usize
    requires { place < 289 }
    ensures { result ≡ listed_length place }
{
    LENGTHS[place]
}

// The length of a block of so many looks and puts, or none where there are more than 16 of either.
pub fn length_of(looks: usize, puts: usize) -> Option<usize>
    ensures { result ≡ length_listed looks puts }
{
    if looks > 16 || puts > 16 {
        return None;
    }
    Some(listed(17 * looks + puts))
}

// Whether a block of so many looks and puts may be, and has this length.
pub(crate) fn is_length(looks: usize, puts: usize, len: usize) -> bool
    ensures { result ≡ length_right looks puts len }
{
    length_of(looks, puts) == Some(len)
}
