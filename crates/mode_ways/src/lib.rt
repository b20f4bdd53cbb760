//! The ways in which one flow can be written (CSS Writing Modes 4, 6.2 and 6.4): a mode with what text does there, and what a style, a box and a
//! node of a horizontal flow are in it. Definitions alone: the laws on them stand in flow_modes and style_modes.
