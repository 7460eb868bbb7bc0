//! The laws of the form.
ghost use Rattle.std.specs.Prelude.{◌≡◌, ◌↔◌, ◌+◌, ℕ, ◌<◌, List, ◌++◌, length, None, All};
ghost use Rattle.slb_image.specs.Image.{Image, FitsImage, IsImageOf, IsImage};
ghost use Rattle.slb_image.specs.Fields.{length_field};
ghost use Rattle.slb_image.specs.Faults.{image_fault, build_fault};

/// The laws of images. An image determines what it says, and its length field says where it ends,
/// whatever follows. Bytes are an image exactly where they have no fault, and values have an image
/// exactly where they have none.
pub fn image_law()
    ensures determined { (one other : Image) (bytes : List ℕ)
        → IsImageOf one bytes → IsImageOf other bytes → one ≡ other }
    ensures sized { (image : Image) (bytes : List ℕ)
        → IsImageOf image bytes → length bytes ≡ 32 + length image.code }
    ensures ends { (bytes rest : List ℕ) → IsImage bytes
        → length_field (bytes ++ rest) ≡ length bytes }
    ensures faultless { (bytes : List ℕ) → All (λ byte. byte < 256) bytes
        → ((image_fault bytes ≡ None) ↔ IsImage bytes) }
    ensures ranges { (entry budget : ℕ) (code : List ℕ) → All (λ byte. byte < 256) code
        → ((build_fault entry budget code ≡ None) ↔ FitsImage entry budget code) }
{}
