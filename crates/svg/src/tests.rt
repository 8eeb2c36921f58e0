// Small drawings.
use crate::drawing::{Drawing, NoDrawing};
use std::str;
use std::test::Fail;

#[test]
fn a_row_of_runs(rt: HostRuntime) -> Result<(), Fail> {
    let mut drawing = Drawing::new(Vec::new(rt.alloc()));
    drawing.cells(7, &[0, 2, 2, 1, 3, 3, 3, 0, 1])?;
    let bytes = drawing.finish()?;
    assert_eq!(rt;
        str::from_utf8(bytes.as_slice())?,
        "\
<path class=\"k1\" d=\"M0 7h3v1h1v-1h4v1h1v-1\"/>
<path class=\"k2\" d=\"M0 7h1v1h2v-1\"/>
<path class=\"k3\" d=\"M0 7h4v1h3v-1\"/>
</svg>
"
    );
    Ok(())
}

#[test]
fn marks_and_lines(rt: HostRuntime) -> Result<(), Fail> {
    let mut drawing = Drawing::new(Vec::new(rt.alloc()));
    drawing.begin_cells(20, 30, 14)?;
    drawing.frame(3, 1)?;
    drawing.marks(0, &[1, 0, 1])?;
    drawing.grid(3, 1)?;
    drawing.end_cells()?;
    let bytes = drawing.finish()?;
    assert_eq!(rt;
        str::from_utf8(bytes.as_slice())?,
        "\
<g transform=\"translate(20 30) scale(14)\">
<rect class=\"frame\" x=\"0\" y=\"0\" width=\"3\" height=\"1\"/>
<path class=\"mark\" d=\"M0 0.3h0v.4h1v-.4h1v.4h1v-.4\"/>
<path class=\"grid\" d=\"M0 0m1 0v1m0 -1m1 0v1m0 -1\"/>
</g>
</svg>
"
    );
    Ok(())
}

#[test]
fn letters_are_spelled(rt: HostRuntime) -> Result<(), Fail> {
    let mut drawing = Drawing::new(Vec::new(rt.alloc()));
    drawing.words(20, 40, "a < b & c > d")?;
    let bytes = drawing.finish()?;
    assert_eq!(rt;
        str::from_utf8(bytes.as_slice())?,
        "<text class=\"words\" x=\"20\" y=\"40\">a &lt; b &amp; c &gt; d</text>\n</svg>\n"
    );
    Ok(())
}

#[test]
fn past_the_colours(rt: HostRuntime) -> Result<(), Fail> {
    let mut drawing = Drawing::new(Vec::new(rt.alloc()));
    let drawn = drawing.cells(0, &[1, 16]);
    assert!(rt; matches!(drawn, Err(NoDrawing::NoColour { place: 1 })));
    Ok(())
}
